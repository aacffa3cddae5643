//! The words of the command line, read by hand: the written form is the whole grammar.
ghost use Rattle.std.specs.Prelude.{◌≡◌, ◌↔◌, ℕ, IfSome, IsTrue, Some, codes, map, string_bytes};
ghost use Rattle.ls_top.specs.Words.{IsRunWords};

use crate::number::number;

/// The boot number of `run --boot N`, where the words have that form. It takes no memory.
pub fn boot_of(words: &[String]) -> Option<u32>
    ensures read { IfSome result (λ boot. IsRunWords (map string_bytes words.now) boot) }
    ensures only { (boot : ℕ) → IsRunWords (map string_bytes words.now) boot
        → result ≡ Some boot }
{
    match words {
        [run, option, boot] => {
            if !are_run_boot(run.as_str(), option.as_str()) {
                return None;
            }
            number(boot.as_bytes())
        }
        _ => None,
    }
}

fn are_run_boot(run: &str, option: &str) -> bool
    ensures exact { IsTrue result ↔ ((run.now ≡ codes "run") × (option.now ≡ codes "--boot")) }
{
    run == "run" && option == "--boot"
}
