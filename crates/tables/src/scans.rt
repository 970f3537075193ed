// Scans of a table of parcel lengths by slot: numbers, offsets and totals of messages, whatever the slots hold.
ghost use Rattle.std.specs.Prelude.{◌≡◌, ℕ, ◌+◌, ◌≤◌, ◌<◌, length, IsSomeAnd};
ghost use Rattle.machine.specs.Plan.{Message};
ghost use Rattle.plan.specs.Messages.{messages_of};
ghost use Rattle.tables.specs.scans.Scans.{Sheet, Lengths, Summing, Found};

use crate::TABLE_WORDS;

// Where a message is found: its slot, its number, its place in the buffer.
#[derive(Clone, Copy)]
pub struct MessageSlot {
    pub slot: usize,
    pub number: usize,
    pub offset: usize,
    pub words: usize,
}

#[derive(Clone, Copy)]
pub struct Total {
    pub messages: usize,
    pub words: usize,
}

// How many messages and words the slots before `end` have.
pub fn sums_to(lens: &[u16; TABLE_WORDS], end: usize) -> Total
    requires { Sheet lens.now end }
    ensures { (result.messages ≤ 7168) × ((result.words ≤ 117440512)
        × ((f : ℕ → Message) → Lengths f end lens.now → Summing f end result.messages result.words)) }
{
    let mut messages = 0;
    let mut words = 0;
    for &length in &lens[..end] {
        if length != 0 {
            messages += 1;
        }
        words += length as usize;
    }
    Total { messages, words }
}

// The message of a slot.
pub fn message_of(lens: &[u16; TABLE_WORDS], slot: usize) -> MessageSlot
    requires { Sheet lens.now (slot + 1) }
    ensures { (f : ℕ → Message) → (n : ℕ) → Lengths f n lens.now → slot < n → 0 < length (f slot).cells
        → Found f n (length (messages_of f slot)) result }
{
    let before = sums_to(lens, slot);
    MessageSlot {
        slot,
        number: before.messages,
        offset: before.words,
        words: lens[slot] as usize,
    }
}

// Message m of so many slots, if there are so many messages.
pub fn find(lens: &[u16; TABLE_WORDS], slots: usize, m: usize) -> Option<MessageSlot>
    requires { Sheet lens.now slots }
    ensures { (f : ℕ → Message) → Lengths f slots lens.now → m < length (messages_of f slots) → IsSomeAnd result (Found f slots m) }
{
    let mut number = 0;
    let mut offset = 0;
    for (slot, &length) in lens[..slots].iter().enumerate() {
        let words = length as usize;
        if words != 0 {
            if number == m {
                return Some(MessageSlot {
                    slot,
                    number,
                    offset,
                    words,
                });
            }
            number += 1;
        }
        offset += words;
    }
    None
}

// Message m of so many slots; zeros where there are not so many messages.
pub fn nth(lens: &[u16; TABLE_WORDS], slots: usize, m: usize) -> MessageSlot
    requires { Sheet lens.now slots }
    ensures { (f : ℕ → Message) → Lengths f slots lens.now → m < length (messages_of f slots) → Found f slots m result }
{
    match find(lens, slots, m) {
        Some(place) => place,
        None => MessageSlot {
            slot: 0,
            number: 0,
            offset: 0,
            words: 0,
        },
    }
}
