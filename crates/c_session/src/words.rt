// What the words of the command line say, for as long as a session lasts.
ghost use Rattle.std.specs.Prelude.{◌≡◌, IfOk};
ghost use Rattle.plain_mean.specs.Confs.{conf_of, IsUsable};
ghost use Rattle.project_conf.specs.Defines.{AreUsable};

use doc_texts::Docs;
use plain_mean::conf_of;
use project_conf::{Conf, Options};
use std::alloc::{AllocError, Global};
use std::marker::Model;

/// Options with whose definitions a unit may begin. Contracts see the options.
#[derive(Drop)]
pub(crate) struct Words {
    options: Options,
}

impl Model for Words {
    ghost use Rattle.project_conf.specs.Defines.{AreUsable};
    ghost use Rattle.project_conf.specs.declared.options.Options.{Options};

    ghost Value = { Options };

    ghost view = { λ w. w.options };

    ghost invariant = { λ w. AreUsable 131072 w.options.defines };
}

impl Words {
    pub fn of(options: Options) -> Words
        requires { AreUsable 131072 options.defines }
        ensures { result ≡ options }
    {
        Words { options }
    }

    /// How the units of these texts are read.
    #[tactic(auto, using(crate::proofs::Usable::usable_conf))]
    pub fn conf(&self, alloc: Global, docs: &Docs) -> Result<Conf, AllocError>
        ensures conf { IfOk result (λ conf. conf ≡ conf_of self.now docs.now) }
        ensures usable { IfOk result (λ conf. IsUsable conf) }
    {
        let conf = conf_of(alloc, &self.options, docs)?;
        Ok(conf)
    }
}
