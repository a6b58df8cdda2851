//! Bundles that are made from a number, for runs that try the whole program.
#![tactic(auto)]

mod contexts;
mod draft;
mod draws;
mod naming;

ghost use Rattle.std.specs.Prelude.{◌≡◌, IfOk};
ghost use Rattle.micro_isa.specs.Formed.{IsFormedBundle};
ghost use Rattle.soak_gen.specs.Bundles.{generated};

use micro_isa::{Bundle, Channel, List, NoMemory, Setting};
use std::alloc::Global;

/// The bundle of a number: eight contexts of 800 drawn rows each, which they run four times.
pub fn generated(alloc: Global, number: u32) -> Result<Bundle, NoMemory>
    ensures bundle { IfOk result (λ bundle. bundle ≡ generated number) }
    ensures formed { IfOk result IsFormedBundle }
{
    bundle(alloc, number)
}

#[tactic(auto, unfolding(crate::specs::Bundles::generated))]
fn bundle(alloc: Global, number: u32) -> Result<Bundle, NoMemory>
    ensures { IfOk result (λ bundle. bundle ≡ generated number) }
{
    let all = contexts::made_contexts(alloc, number)?;
    let mut channels = List::new(alloc);
    if channels.push(Channel::Output { port: None }).is_err() {
        return Err(NoMemory);
    }
    let mut names = List::new(alloc);
    if names.push(naming::name_of(alloc, b"out")?).is_err() {
        return Err(NoMemory);
    }
    Ok(Bundle {
        file: 128,
        setting: Setting {
            memory: 1024,
            channels,
        },
        names,
        programs: all.programs,
    })
}
