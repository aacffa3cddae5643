//! Each line of a script is answered.
ghost use Rattle.std.specs.Prelude.{◌≡◌, ℕ, List, Ok, Err, Some, map};
ghost use Rattle.ls_grammar.specs.declared.fault.LineFault.{LineFault as Faults};
ghost use Rattle.ls_script.specs.Commands.{line_reply};
ghost use Rattle.ls_script.specs.ReplyLines.{IsOneLine};
ghost use Rattle.ls_script.specs.ReplyText.{reply_text, fault_text};
ghost use Rattle.ls_script.specs.ScriptReading.{reading_of};
ghost use Rattle.ls_script.specs.declared.reply.Reply.{Reply as Replies};
ghost use Rattle.ls_script.specs.declared.script_line.ScriptLine.{ScriptLine as Lines};
ghost use Rattle.ls_vault.specs.Script.{Stage, served_text};

/// What is printed for a text is one reply: for a line the first refusal, or else the reply of the
/// command that it is named for; for any other text why it is none.
pub fn lines_are_answered()
    ensures line { (slots : ℕ) (at : Stage) (text : List ℕ) (line : Lines)
        → reading_of text ≡ Ok line
        → (r : Replies)
        × (line_reply line (map (λ e. e.reply) (served_text slots at text).entries) ≡ Some r)
        × ((served_text slots at text).printed ≡ reply_text r) }
    ensures fault { (slots : ℕ) (at : Stage) (text : List ℕ) (why : Faults)
        → reading_of text ≡ Err why
        → fault_text why ≡ Some (served_text slots at text).printed }
{}

/// What is printed for a text is one line. So as many lines were answered to their end as 0x0A were
/// said.
pub fn answers_are_lines()
    ensures single { (slots : ℕ) (at : Stage) (text : List ℕ)
        → IsOneLine (served_text slots at text).printed }
{}
