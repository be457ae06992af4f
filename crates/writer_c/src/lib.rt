// The writer of canonical tables, for callers in C: the exported function, over that of the library.
#![tactic(auto)]

ghost use Rattle.writer.specs.Answer.{WritesAs};

// Writes the canonical table of a table: the refusal's number, or 65,536 and the length.
#[unsafe(no_mangle)]
pub extern "C" fn vangpear_canonical(table: &[u8], out: &mut [u8]) -> u32
    ensures { WritesAs table.now out.old out.new result }
{
    writer::vangpear_canonical(table, out)
}
