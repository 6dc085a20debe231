// Live runs: one event or one record at a time, over a memory that the host keeps.
ghost use Rattle.std.specs.Prelude.{◌≡◌, ◌++◌, ◌*◌, ◌≤◌, length, drop};
ghost use Rattle.wire.specs.Reply as Reply;
ghost use Rattle.table.specs.Encode.{words};
ghost use Rattle.live.specs.Answer as live_answer;
ghost use Rattle.krossvil.specs.Host.{told, code_of, answer_after, live_told, live_record, live_keeps, watch_told, watch_keeps};
ghost use Rattle.krossvil.specs.Small.{Refusing};

use crate::checking::{ACCEPTED_ANSWER, in_order};
use crate::telling::{Turned, code, room_beside, tell};

// Bytes of answer that a live run needs: six numbers.
const LIVE_ANSWER: usize = 24;

pub fn krossvil_live(
    table: &[u8],
    memory: &mut [u32],
    event: &[u8],
    out: &mut [u8],
    answer: &mut [u8],
) -> u64
    ensures code { result ≡ code_of (live_told table.now memory.old event.now out.old (length answer.old)) }
    ensures bytes { answer.new ≡ answer_after (live_told table.now memory.old event.now out.old (length answer.old)) answer.old }
    ensures written { out.new ≡ live_record table.now memory.old event.now out.old (length answer.old) }
    ensures kept { memory.new ≡ live_keeps table.now memory.old event.now out.old (length answer.old) }
{
    let room = room_beside(answer.len(), LIVE_ANSWER, out.len());
    match live::take_event(table, memory, event, &mut out[..room]) {
        Ok(t) => {
            let bytes = t.size as u32;
            let numbers = [bytes, t.state, t.output, t.phase, t.left, t.deadline];
            tell::<Turned>(&numbers, answer)
        }
        Err(refusal) => code(refusal),
    }
}

fn tell_watched(done: Result<journal::Numbers, live::NotTaken>, answer: &mut [u8]) -> u64
    requires { Refusing done }
    ensures code { result ≡ code_of (told (live_answer.watch_reply done) (length answer.old)) }
    ensures bytes { answer.new ≡ answer_after (told (live_answer.watch_reply done) (length answer.old)) answer.old }
{
    match done {
        Ok(numbers) => tell::<Turned>(&in_order(numbers), answer),
        Err(refusal) => code(refusal),
    }
}

// The memory may change only if the answer is long enough: where it is not, the check only looks.
pub fn krossvil_watch(table: &[u8], memory: &mut [u32], bytes: &[u8], answer: &mut [u8]) -> u64
    ensures code { result ≡ code_of (watch_told table.now memory.old bytes.now (length answer.old)) }
    ensures bytes { answer.new ≡ answer_after (watch_told table.now memory.old bytes.now (length answer.old)) answer.old }
    ensures kept { memory.new ≡ watch_keeps table.now memory.old bytes.now (length answer.old) }
{
    if answer.len() < ACCEPTED_ANSWER {
        return tell_watched(live::look_at_record(table, memory, bytes), answer);
    }
    tell_watched(live::watch_record(table, memory, bytes), answer)
}
