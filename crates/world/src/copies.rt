//! Copies of lists of the world, for what a run shows.

ghost use Rattle.std.specs.Prelude.{◌≡◌, ◌++◌, [], ◌∷◌, IfOk, OnOk, map};
ghost use Rattle.world.specs.Channels.{has_plugged_port};

use crate::channel::ChannelQueue;
use micro_isa::{List, NoMemory};
use std::alloc::Global;

pub(crate) fn copied<T: Copy>(alloc: Global, items: &[T]) -> Result<List<T>, NoMemory>
    ensures { IfOk result (λ copy. copy ≡ items.now) }
{
    match Vec::from_slice(alloc, items) {
        Ok(items) => Ok(List::of(items)),
        Err(_) => Err(NoMemory),
    }
}

/// What a run shows of its channels, an item a channel: the initial words that were not yet received,
/// the words of the ring, and whether the port is plugged.
#[derive(Drop)]
pub(crate) struct ShownChannels {
    pub left: List<List<u32>>,
    pub rings: List<List<u32>>,
    pub plugged: List<bool>,
}

pub(crate) fn shown(alloc: Global, channels: &[ChannelQueue]) -> Result<ShownChannels, NoMemory>
    ensures left { IfOk result (λ shown. shown.left ≡ map (λ ch. ch.left) channels.now) }
    ensures rings { IfOk result (λ shown. shown.rings ≡ map (λ ch. ch.ring) channels.now) }
    ensures plugged { IfOk result (λ shown. shown.plugged ≡ map has_plugged_port channels.now) }
{
    let mut left = List::new(alloc);
    let mut rings = List::new(alloc);
    let mut plugged = List::new(alloc);
    for queue in channels {
        add(&mut left, queue.left(alloc)?)?;
        add(&mut rings, queue.ring(alloc)?)?;
        add(&mut plugged, queue.is_plugged())?;
    }
    Ok(ShownChannels {
        left,
        rings,
        plugged,
    })
}

fn add<T: Drop>(list: &mut List<T>, item: T) -> Result<(), NoMemory>
    ensures { OnOk result (list.new ≡ list.old ++ item ∷ []) }
{
    match list.push(item) {
        Ok(()) => Ok(()),
        Err(_) => Err(NoMemory),
    }
}
