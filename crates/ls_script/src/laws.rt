//! What the definitions of lines and of the texts of replies come to, as laws.
ghost use Rattle.std.specs.Prelude.{◌≡◌, ℕ, List, take, Some};
ghost use Rattle.ls_grammar.specs.declared.fault.LineFault.{LineFault as Faults};
ghost use Rattle.ls_script.specs.ReplyLines.{IsOneLine, NamesFiles};
ghost use Rattle.ls_script.specs.ReplyText.{reply_text, fault_text};
ghost use Rattle.ls_script.specs.ScriptReading.{reading_of};
ghost use Rattle.ls_script.specs.declared.reply.Reply.{Reply as Replies};

/// A line is read as its first 4,097 bytes are, since no line of the grammar has more than 4,096.
/// So whoever keeps these of a longer text answers it rightly.
pub fn lines_are_read_by_their_beginning()
    ensures same { (text : List ℕ) → reading_of (take 4097 text) ≡ reading_of text }
{}

/// The text of each reply, and of each fault of a line, is one line: it has one 0x0A, its last byte.
pub fn replies_are_lines()
    ensures reply { (r : Replies) → NamesFiles r → IsOneLine (reply_text r) }
    ensures fault { (f : Faults) (text : List ℕ) → fault_text f ≡ Some text → IsOneLine text }
{}
