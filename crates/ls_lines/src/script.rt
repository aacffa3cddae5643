//! A script that is there as a whole, a line at a time.
ghost use Rattle.std.specs.Prelude.{◌≡◌, ◌<◌, ◌≤◌, ◌∷◌, ◌==◌, length, not};
ghost use Rattle.std.specs.List.{prefix_len};
ghost use Rattle.ls_lines.specs.Lines.{lines_of};

/// The first line of a script, without its 0x0A, and what stands behind it. It takes no memory.
pub fn first_line(script: &[u8]) -> (&[u8], &[u8])
    requires some { 0 < length script.now }
    ensures lines { lines_of script.now ≡ result.0.now ∷ lines_of result.1.now }
    ensures shorter { length result.1.now < length script.now }
{
    let end = first_end(script);
    if end < script.len() {
        (&script[..end], &script[end + 1..])
    } else {
        (script, &[])
    }
}

/// Where the first line ends: at its 0x0A, or at the end of the script.
fn first_end(script: &[u8]) -> usize
    ensures count { result ≡ prefix_len (λ b. not (b == 10)) script.now }
    ensures within { result ≤ length script.now }
{
    script.iter().take_while(|b| **b != b'\n').count()
}
