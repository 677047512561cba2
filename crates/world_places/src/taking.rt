// A switch takes in what is on its way to it.
ghost use Rattle.std.specs.Prelude.{◌≡◌, ◌∷◌, List, Some, drop, IfOk};
ghost use Rattle.std.specs.List.{position};
ghost use Rattle.of10_codec.specs.declared.message.Message.{Message};
ghost use Rattle.world_places.specs.Acts.{ActsBy};
ghost use Rattle.world_places.specs.Places.{has_more, joined};
ghost use Rattle.world_places.specs.declared.acting.Act.TheVariants.{Take};

use crate::acting::Acted;
use crate::place::Place;
use maple_base::NoMemory;
use message_blocks::Block;
use of10_codec::Message;
use std::alloc::Global;

/// The next message on its way comes in.
pub fn take(alloc: Global, place: &mut Place) -> Acted
    ensures connection { place.new.connection ≡ place.old.connection }
    ensures room { place.new.table.capacity ≡ place.old.table.capacity }
    ensures acts { ActsBy Take result place.old place.new }
{
    let Some(at) = next_block(&place.blocks) else {
        return Acted::NotThere;
    };
    let Ok(message) = first_message(alloc, &place.blocks, at) else {
        return Acted::NoMemory;
    };
    if place.pending.reserve(1).is_err() {
        return Acted::NoMemory;
    }
    drop_first(&mut place.blocks, at);
    place.pending.push_reserved(message);
    Acted::Done
}

// The first block that has a message.
fn next_block(blocks: &[Block]) -> Option<usize>
    ensures { result ≡ position has_more blocks.now }
{
    blocks.iter().position(|block| !block.is_empty())
}

fn first_message(alloc: Global, blocks: &[Block], at: usize) -> Result<Message, NoMemory>
    requires { position has_more blocks.now ≡ Some at }
    ensures { IfOk result (λ m. (later : List Message) × (joined blocks.now ≡ m ∷ later)) }
{
    blocks[at].first(alloc)
}

// The first message goes, and its block with it where that has no more.
fn drop_first(blocks: &mut Vec<Block>, at: usize)
    requires { position has_more blocks.old.items ≡ Some at }
    ensures { joined blocks.new.items ≡ drop 1 (joined blocks.old.items) }
{
    let block = &mut blocks[at];
    block.drop_first();
    if block.is_empty() {
        let _gone = blocks.remove(at);
    }
}
