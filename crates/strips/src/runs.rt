// Runs of strips.
ghost use Rattle.std.specs.Prelude.{◌≡◌, ℕ, ◌≤◌, List, ◌++◌, length, drop, Some};
ghost use Rattle.std.specs.Result.{result_err};
ghost use Rattle.session.specs.View.{shut};
ghost use Rattle.history.specs.Laws.{SessionLaws};
ghost use Rattle.strips.specs.Runs.{Progress, start, with_stop, report_of, RunOf};
ghost use Rattle.strips.specs.Records.{Recorded};
ghost use Rattle.strips.specs.Turns.{SameBuffer, Begins, Holds, Turned, Onward, Went};

use crate::answers::answer;
use crate::cursor::Cursor;
use crate::orders::{Entry, Order};
use crate::replies::Replies;
use crate::stops::{Report, Stop};
use crate::strip::{MOST_BYTES, Strip};
use generator::Generator;
use session::Session;

// A run in progress. Its replies are lent to it, since a proof loses what becomes of a buffer that a field of a field borrows; and so is the buffer
// that a reply's bytes are made in, since a copy into a field of it is compiled to a call of `memmove`.
#[derive(Drop)]
struct Running<'a, G: Generator> {
    session: Session<G>,
    cursor: Cursor<'a>,
}

impl<'a, G: Generator> Running<'a, G> {
    // One order: read, put to the session and replied to.
    fn turn(
        &mut self,
        replies: &mut Replies<'_>,
        scratch: &mut [u8; MOST_BYTES],
    ) -> Result<Order<'a>, Stop>
        ensures turned { (p : Progress) (before : List ℕ) → Holds p before self.old.cursor replies.old → Turned G.Generator.meaning p before self.old.cursor self.old.session (length replies.old.buffer.now) result self.new.cursor replies.new self.new.session }
        ensures same_buffer { SameBuffer replies.old replies.new }
        ensures onward { Onward self.old.cursor result self.new.cursor }
    {
        if replies.room() < 4 {
            return Err(Stop::NoRoom);
        }
        let cursor = self.cursor;
        let place = cursor.place();
        let Entry { order, words } = match cursor.order() {
            Ok(entry) => entry,
            Err(stop) => {
                replies.put_refusal(stop.number(), 0, place);
                return Err(stop);
            }
        };
        if replies.room() < order.reply_room() {
            return Err(Stop::NoRoom);
        }
        let answer = answer(&mut self.session, order, scratch);
        replies.put_answer(place, order, answer, scratch);
        self.cursor = cursor.behind(words, answer.is_err());
        Ok(order)
    }

    // Order after order, until the end or a stop.
    fn go(&mut self, replies: &mut Replies<'_>, scratch: &mut [u8; MOST_BYTES]) -> Result<(), Stop>
        requires { Begins G.Generator.meaning self.old.cursor replies.old self.old.session }
        ensures went { Went G.Generator.meaning self.old.cursor replies.old.buffer.now (result_err result) self.new.cursor replies.new }
        ensures same_buffer { SameBuffer replies.old replies.new }
    {
        while !self.turn(replies, scratch)?.is_end() {}
        Ok(())
    }
}

// Stops before the first order, with one refusal.
pub(crate) fn refuse(stop: Stop, replies: &mut [u8]) -> Report
    requires { 4 ≤ length replies.old }
    ensures report { result ≡ report_of (Some stop) (with_stop start stop) }
    ensures replies { replies.new ≡ (with_stop start stop).out ++ drop 4 replies.old }
{
    let mut replies = Replies::new(replies);
    replies.put_refusal(stop.number(), 0, 0);
    Report {
        stopped: Some(stop),
        bytes: replies.written(),
        ..Report::default()
    }
}

// Runs a strip over the generator: puts its orders to a session of its own, and writes the replies at the front of a buffer.
pub fn run<G: Generator + Drop>(generator: G, strip: &[u8], replies: &mut [u8]) -> Report
    ensures ran { RunOf G.Generator.meaning strip.now replies.old result replies.new }
    ensures recorded { Recorded G.Generator.meaning strip.now replies.old result replies.new }
    ensures laws { SessionLaws G.Generator.meaning }
{
    if replies.len() < 4 {
        return Report::without_room();
    }
    let strip = match Strip::new(strip) {
        Ok(strip) => strip,
        Err(stop) => return refuse(stop, replies),
    };
    let mut replies = Replies::new(replies);
    let mut running = Running {
        session: Session::new(generator),
        cursor: Cursor::new(strip),
    };
    let mut scratch = [0; MOST_BYTES];
    let stopped = running.go(&mut replies, &mut scratch).err();
    let cursor = running.cursor;
    Report {
        stopped,
        words: cursor.place(),
        bytes: replies.written(),
        refused: cursor.refused(),
    }
}
