// The analysis and the check, for callers in C: the exported functions, over those of the library.
#![tactic(auto)]

ghost use Rattle.std.specs.Prelude.{◌≡◌};
ghost use Rattle.table.specs.Check.{check_table};
ghost use Rattle.table.specs.Answer.{check_number, checked_of};
ghost use Rattle.analysis.specs.Answer.{AnalysedAs, RoundsAs};

// Analyses a table: 0 for clear, the refusal's number, or 65,536 + 1,024 × routine + 32 × name.
#[unsafe(no_mangle)]
pub extern "C" fn vangpear_analyse(table: &[u8], model: &mut [u8]) -> u32
    ensures { AnalysedAs table.now model.old model.new result }
{
    analysis::vangpear_analyse(table, model)
}

// Analyses a table in the same way: 65,536 + the number of rounds, or the refusal's number.
#[unsafe(no_mangle)]
pub extern "C" fn vangpear_rounds(table: &[u8], model: &mut [u8]) -> u32
    ensures { RoundsAs table.now model.old model.new result }
{
    analysis::vangpear_rounds(table, model)
}

// Checks a whole table: the refusal's number, or 65,536 × routines + items.
#[unsafe(no_mangle)]
pub extern "C" fn vangpear_check(table: &[u8]) -> u32
    ensures { result ≡ check_number (checked_of (check_table table.now)) }
{
    analysis::vangpear_check(table)
}
