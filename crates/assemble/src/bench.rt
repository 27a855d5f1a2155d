ghost use Rattle.std.specs.Prelude.{◌≡◌, ◌<◌, [], None, vec_len, vec_capacity, slice_index_or, slice_set};
ghost use Rattle.sections.specs.Section.{Section};
ghost use Rattle.assemble.specs.Orders.{state_of, opening, filling, giving_up, performing};

use super::answer::{Answer, Refusal};
use super::apply::apply;
use super::call::Order;
use numbers::Format;
use std::alloc::Global;
use writers::{
    InitialLengthOffset, LinkWriter, Writer, write_initial_length, write_initial_length_at,
};

// A section's writer, and the lengths that were opened on it, each until it is filled or given up.
pub struct Bench<L> {
    pub writer: L,
    pub lengths: Vec<Option<InitialLengthOffset>>,
}

impl<L> Bench<L> {
    pub fn new(heap: Global, writer: L) -> Bench<L>
        ensures { (result.writer ≡ writer) × (result.lengths.items ≡ []) }
    {
        Bench {
            writer,
            lengths: Vec::new(heap),
        }
    }

    // Takes the token of a number out, if it is there.
    fn take(&mut self, index: usize) -> Option<InitialLengthOffset>
        ensures value { result ≡ slice_index_or self.old.lengths.items index None }
        ensures after { self.new.lengths.items ≡ slice_set self.old.lengths.items index None }
        ensures writer { self.new.writer ≡ self.old.writer }
    {
        self.lengths.get_mut(index)?.take()
    }
}

impl<L: Writer> Bench<L> {
    // Opens a length, and keeps its token under the next number.
    fn open_length(&mut self, format: Format) -> Result<Answer, Refusal>
        requires { vec_len self.old.lengths < vec_capacity self.old.lengths }
        ensures { opening format (state_of L.Writer.meaning self.old) ≡ (state_of L.Writer.meaning self.new, result) }
    {
        let index = self.lengths.len();
        let token = write_initial_length(&mut self.writer, format)?;
        let place = token.offset();
        self.lengths.push_reserved(Some(token));
        Ok(Answer::Opened { index, place })
    }

    // Fills an opened length, which spends its token also where the length is refused.
    fn fill_length(&mut self, index: usize, length: u64) -> Result<Answer, Refusal>
        ensures { filling index length (state_of L.Writer.meaning self.old) ≡ (state_of L.Writer.meaning self.new, result) }
    {
        let token = self.take(index).ok_or(Refusal::NotOpen)?;
        write_initial_length_at(&mut self.writer, token, length)?;
        Ok(Answer::Done)
    }

    // Gives an opened length up.
    fn give_up(&mut self, index: usize) -> Result<Answer, Refusal>
        ensures { giving_up index (state_of L.Writer.meaning self.old) ≡ (state_of L.Writer.meaning self.new, result) }
    {
        let token = self.take(index).ok_or(Refusal::NotOpen)?;
        Ok(Answer::GivenUp {
            place: token.give_up(),
        })
    }
}

impl<L: LinkWriter> Bench<L> {
    // Carries out an order.
    pub fn perform(&mut self, order: &Order) -> Result<Answer, Refusal>
        requires { vec_len self.old.lengths < vec_capacity self.old.lengths }
        ensures { performing L.LinkWriter.relocates order.now (state_of L.Writer.meaning self.old) ≡ (state_of L.Writer.meaning self.new, result) }
    {
        match order {
            Order::Run(call) => {
                apply(&mut self.writer, call)?;
                Ok(Answer::Done)
            }
            Order::OpenLength(format) => self.open_length(*format),
            Order::FillLength(index, length) => self.fill_length(*index, *length),
            Order::GiveUp(index) => self.give_up(*index),
        }
    }
}

impl<L: Drop> Bench<L> {
    // Gives up all that is open, so that nothing is left.
    pub fn finish(self) {
        let Bench {
            writer: _,
            mut lengths,
        } = self;
        // Tokens are taken out one by one, since none can be dropped.
        while let Some(length) = lengths.pop() {
            let _ = length.map(InitialLengthOffset::give_up);
        }
        lengths.destroy_empty();
    }
}
