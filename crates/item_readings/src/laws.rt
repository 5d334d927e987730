// Laws on readers. They have nothing to run; their contracts are the laws.
ghost use Rattle.item_readings.specs.Readings.{BodiesAgree, HeadsAgree, IsReader};
ghost use Rattle.item_readings.specs.TheReader.{the_reader};

use c_parser::head_reading_is_unique;
use stmt_parser::body_reading_is_unique;

/// Any two readers say the same of the words of a head.
pub fn heads_agree()
    ensures { HeadsAgree }
{
    head_reading_is_unique();
}

/// Any two readers say the same of the words of a body.
pub fn bodies_agree()
    ensures { BodiesAgree }
{
    body_reading_is_unique();
}

/// There is a reader: one that finds a tree of the grammar wherever there is one.
#[tactic(auto, using(crate::specs::TheReader::is_reader))]
pub fn readings_exist()
    ensures { IsReader the_reader }
{}
