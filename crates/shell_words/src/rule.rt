//! The rules of a script, S1 to S8.
ghost use Rattle.std.specs.Prelude.{◌≡◌};
ghost use Rattle.shell_words.specs.Rules.{script_rule_number};

/// A rule of a script. It is told by its number, with an `S` before it.
#[derive(Clone, Copy, Debug, PartialEq, Eq)]
pub enum ScriptRule {
    /// S1: a line outside chunks is empty or one of the table's.
    KnownLine = 1,
    /// S2: a command stands after the line of a session and before its logout.
    InSession = 2,
    /// S3: a chunk ends with a line `%`.
    ChunkEnd = 3,
    /// S4: the text of a chunk or a method has at most 65,536 bytes.
    ChunkSize = 4,
    /// S5: a script has at most 16 sessions.
    SessionCount = 5,
    /// S6: a user name is a letter with letters and digits after it, at most 64 in all.
    UserName = 6,
    /// S7: a script has at most 1,048,576 bytes.
    ScriptSize = 7,
    /// S8: each byte of a script is one of 32 to 126, a tab, LF or CR.
    ScriptBytes = 8,
}

impl ScriptRule {
    /// The number, from 1 to 8.
    pub fn number(self) -> u8
        ensures { result ≡ script_rule_number self }
    {
        self as u8
    }
}
