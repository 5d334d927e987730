// Lists in the order of the items, parted by item.
ghost use Rattle.std.specs.Prelude.{◌≡◌, ◌≤◌, length};
ghost use Rattle.unit_meaning.specs.Order as spec;

use scope_tables::{BodyMeaning, HeadMeaning};
use type_data::ItemName;

fn heads_of(heads: &[HeadMeaning], item: &ItemName) -> usize
    ensures count { result ≡ spec.count spec.of_head item.now heads.now }
    ensures within { result ≤ length heads.now }
{
    heads.iter().take_while(|head| head.item == *item).count()
}

fn bodies_of(bodies: &[BodyMeaning], item: &ItemName) -> usize
    ensures count { result ≡ spec.count spec.of_body item.now bodies.now }
    ensures within { result ≤ length bodies.now }
{
    bodies.iter().take_while(|body| body.item == *item).count()
}

/// The heads of this item, and those of the items behind it.
pub(crate) fn part_heads<'a>(
    heads: &'a [HeadMeaning],
    item: &ItemName,
) -> (&'a [HeadMeaning], &'a [HeadMeaning])
    ensures front { result.0.now ≡ spec.front spec.of_head item.now heads.now }
    ensures behind { result.1.now ≡ spec.behind spec.of_head item.now heads.now }
{
    heads.split_at(heads_of(heads, item))
}

/// The bodies of this item, and those of the items behind it.
pub(crate) fn part_bodies<'a>(
    bodies: &'a [BodyMeaning],
    item: &ItemName,
) -> (&'a [BodyMeaning], &'a [BodyMeaning])
    ensures front { result.0.now ≡ spec.front spec.of_body item.now bodies.now }
    ensures behind { result.1.now ≡ spec.behind spec.of_body item.now bodies.now }
{
    bodies.split_at(bodies_of(bodies, item))
}
