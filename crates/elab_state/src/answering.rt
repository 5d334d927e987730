// What a part's first questions are answered stands as names of the file (ISO C11 6.2.1p4).
ghost use Rattle.std.specs.Prelude.{◌≡◌, false, is_some, OnOk, option_map};
ghost use Rattle.elab_state.specs.Answering as spec;
ghost use Rattle.elab_state.specs.Asked.{identifiers};
ghost use Rattle.elab_state.specs.Tokens.{bare_tokens};
ghost use Rattle.elab_state.specs.Wants.{answered};
ghost use Rattle.scope_tables.specs.Scopes.{here};

use crate::asked::{begins_tag, wanted_by};
use crate::binding::put;
use crate::known::Known;
use crate::made::Made;
use crate::tokens::is_identifier;
use crate::wants::Wanted;
use scope_tables::{Binding, Entity};
use std::alloc::{AllocError, Global};
use tok_data::OutToken;

fn stand(
    alloc: Global,
    made: &mut Made,
    one: Wanted,
    entity: Option<&Entity>,
) -> Result<(), AllocError>
    ensures { OnOk result (made.new ≡ spec.standing one (option_map (λ e. e.now) entity.entry) made.old) }
{
    let Some(entity) = entity else {
        return Ok(());
    };
    let entity = entity.share(alloc)?;
    let binding = Binding {
        space: one.space,
        name: one.name,
        entity,
    };
    put(made, binding)
}

fn borrowed(answer: Option<&Option<Entity>>) -> Option<&Entity>
    ensures { option_map (λ e. e.now) result ≡ spec.or_nothing (option_map (λ a. a.now) answer.entry) }
{
    match answer {
        Some(Some(entity)) => Some(entity),
        Some(None) => None,
        None => None,
    }
}

fn is_here(made: &Made, one: &Wanted) -> bool
    ensures { result ≡ is_some (here one.now.space one.now.name made.now.names) }
{
    made.names
        .find_here(&one.space, one.name.as_str())
        .is_some()
}

fn note_answer(alloc: Global, known: &Known, made: &mut Made, one: Wanted) -> Result<(), AllocError>
    ensures { OnOk result (made.new ≡ spec.with_answer one (spec.or_nothing (answered known.now one)) made.old) }
{
    if is_here(made, &one) {
        return Ok(());
    }
    let entity = borrowed(known.get(&one));
    stand(alloc, made, one, entity)
}

/// What is known of the identifiers of these tokens is bound in the innermost scope, where they aren't bound there; it isn't noted as
/// declared. Its cost is linear in the number of tokens.
pub fn note_answers(
    alloc: Global,
    known: &Known,
    made: &mut Made,
    tokens: &[OutToken],
) -> Result<(), AllocError>
    ensures { OnOk result (made.new ≡ spec.with_answered (answered known.now) (identifiers false (bare_tokens tokens.now)) made.old) }
{
    let mut tag = false;
    let mut rest = tokens;
    'tokens: while let Some((token, others)) = rest.split_first() {
        rest = others;
        if is_identifier(token) {
            let one = wanted_by(tag, token)?;
            note_answer(alloc, known, made, one)?;
            tag = false;
            continue;
        }
        tag = begins_tag(token.spelling.as_str());
    }
    Ok(())
}
