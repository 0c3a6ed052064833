//! What each number was told.

ghost use Rattle.std.specs.Prelude.{◌≡◌, All, IfOk};
ghost use Rattle.chew_spec_shared.specs.SharedCalls.{IsOf};

use crate::contexts::Told;
use crate::failure::Failure;
use chew_cell::Pass;
use chew_plain::Reply;
use chew_shared::Shared;
use std::alloc::Global;

/// The replies that a number got, in their order.
#[derive(Drop)]
pub(crate) struct Heard {
    pub(crate) who: u32,
    pub(crate) replies: Vec<Reply>,
}

/// The passes of contexts. What these were told is added to what is heard.
pub(crate) fn part(
    alloc: Global,
    shared: &Shared,
    mut contexts: Vec<Told>,
    heard: &mut Vec<Heard>,
) -> Result<Vec<Pass>, Failure>
    requires { All (λ t. IsOf shared.now t.pass) contexts.items }
    ensures { IfOk result (λ passes. All (λ p. IsOf shared.now p) passes.items) }
{
    let mut passes = Vec::new(alloc);
    'parting: while let Some(context) = contexts.pop() {
        let Told { pass, replies } = context;
        heard.push(Heard {
            who: pass.who(),
            replies,
        })?;
        passes.push(pass)?;
    }
    Ok(passes)
}
