// Live runs: one event or one record at a time, over a memory that the host keeps.
ghost use Rattle.std.specs.Prelude.{◌≡◌, length};
ghost use Rattle.krossvil.specs.Host.{code_of, answer_after, live_told, live_record, live_keeps, watch_told, watch_keeps};

#[unsafe(no_mangle)]
pub extern "C" fn krossvil_live(
    table: &[u8],
    memory: &mut [u32],
    event: &[u8],
    out: &mut [u8],
    answer: &mut [u8],
) -> u64
    ensures code { result ≡ code_of (live_told table.now memory.old event.now out.old (length answer.old)) }
    ensures bytes { answer.new ≡ answer_after (live_told table.now memory.old event.now out.old (length answer.old)) answer.old }
    ensures written { out.new ≡ live_record table.now memory.old event.now out.old (length answer.old) }
    ensures kept { memory.new ≡ live_keeps table.now memory.old event.now out.old (length answer.old) }
{
    krossvil::living::krossvil_live(table, memory, event, out, answer)
}

#[unsafe(no_mangle)]
pub extern "C" fn krossvil_watch(
    table: &[u8],
    memory: &mut [u32],
    bytes: &[u8],
    answer: &mut [u8],
) -> u64
    ensures code { result ≡ code_of (watch_told table.now memory.old bytes.now (length answer.old)) }
    ensures bytes { answer.new ≡ answer_after (watch_told table.now memory.old bytes.now (length answer.old)) answer.old }
    ensures kept { memory.new ≡ watch_keeps table.now memory.old bytes.now (length answer.old) }
{
    krossvil::living::krossvil_watch(table, memory, bytes, answer)
}
