// One routine replaced, for callers in C: the exported function, over that of the library.
#![tactic(auto)]

ghost use Rattle.update.specs.Answer.{ReplacedAs};

// Brings a model up to date: 0 for done, or the refusal's number.
#[unsafe(no_mangle)]
pub extern "C" fn vangpear_update(old: &[u8], new: &[u8], routine: u64, model: &mut [u8]) -> u32
    ensures { ReplacedAs old.now new.now routine model.old model.new result }
{
    update::vangpear_update(old, new, routine, model)
}
