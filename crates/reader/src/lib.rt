// A thin reader over the decoder of records: it holds the bytes of the steps and the cursor.
#![tactic(auto)]

ghost use Rattle.std.specs.Prelude.{◌≡◌, ◌-◌};
ghost use Rattle.std.specs.Iterator.{at_most};
ghost use Rattle.reader.specs.Reading.{found_as, reader_at, moved};

use isa::Call;

#[derive(Clone, Copy)]
pub struct Reader<'a> {
    pub steps: &'a [u8],
    pub cursor: file::Cursor,
}

// The step that a cursor is at, and the cursor behind it; or none, and the same cursor.
#[tactic(auto, unfolding(crate::specs::Reading::found_as))]
pub fn found_at(steps: &[u8], cursor: file::Cursor) -> (Option<Call>, file::Cursor)
    ensures { result ≡ found_as steps.now cursor }
{
    match file::read_record(steps, cursor) {
        Some((record, behind)) => (Some(record), behind),
        None => (None, cursor),
    }
}

impl<'a> Reader<'a> {
    pub fn new(steps: &'a [u8], cursor: file::Cursor) -> Self
        ensures { result ≡ reader_at steps.entry cursor }
    {
        Reader { steps, cursor }
    }
}

impl<'a> Iterator for Reader<'a> {
    type Item = Call;

    // The step that the reader is at; the reader moves on behind it.
    ghost next_gives = { λ r step s. (step ≡ (found_as r.steps.now r.cursor).0) × (s ≡ moved r) };

    ghost remaining = { λ r. at_most (r.cursor.end - r.cursor.next) };

    #[tactic(auto, unfolding(crate::specs::Reading::found_as))]
    fn next(&mut self) -> Option<Call> {
        let (step, cursor) = found_at(self.steps, self.cursor);
        self.cursor = cursor;
        step
    }
}
