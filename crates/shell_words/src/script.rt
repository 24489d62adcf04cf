//! Scripts, as they are read.
ghost use Rattle.std.specs.Prelude.{◌≡◌, ◌≤◌, length};
ghost use Rattle.shell_words.specs.declared.limits.TheConstants.{SESSION_LIMIT};
ghost use Rattle.shell_words.specs.Script.{IsWithinLimits};

use std::marker::Model;
use texts::Text;

/// A command of a session.
#[derive(Debug, Drop)]
pub enum Command {
    /// Runs the text. Where `prints` is true the reply shows the text of the chunk's value.
    Chunk {
        prints: bool,
        text: Text,
    },
    /// Compiles the method whose source is the text into the class that the name refers to, on the
    /// class side where `class_side` is true.
    Method {
        class_side: bool,
        class: Text,
        text: Text,
    },
    /// Asks the Stone to keep what the transaction did. Where it does, or nothing was written, the
    /// transaction ends.
    Commit,
    /// Ends the transaction and forgets what it did.
    Abort,
    /// Ends the session.
    Logout,
    /// Locks the object that the name refers to: for writing where `write` is true, otherwise for
    /// reading.
    Lock {
        write: bool,
        name: Text,
    },
    /// Gives the lock on the object that the name refers to back.
    Unlock {
        name: Text,
    },
    /// Asks the Stone to store its image, and to begin its log anew.
    Checkpoint,
    /// Commits are checked for what a transaction only read, where `full` is true; otherwise they
    /// aren't, from this transaction of the session on.
    Mode {
        full: bool,
    },
}

/// What a script asks of one session: a user and the commands in order.
///
/// A contract sees it as a `SessionCommands`. The user name is one, there are fewer than 1,048,576
/// commands, no chunk or method has more than 65,536 bytes, and no command follows a logout.
#[derive(Debug, Drop)]
pub struct SessionScript {
    user: Text,
    commands: Vec<Command>,
}

impl Model for SessionScript {
    ghost use Rattle.shell_words.specs.Script.{SessionCommands, IsWithinLimits};

    ghost Value = { SessionCommands };

    ghost view = { λ session. record { user = session.user; commands = session.commands.items } };

    ghost invariant = { λ session.
        IsWithinLimits (record { user = session.user; commands = session.commands.items }) };
}

impl SessionScript {
    /// The session of this user with these commands. It keeps both, so it takes no memory.
    pub fn of(user: Text, commands: Vec<Command>) -> SessionScript
        requires { IsWithinLimits (record { user = user; commands = commands.items }) }
        ensures { result ≡ record { user = user; commands = commands.items } }
    {
        SessionScript { user, commands }
    }

    /// The user who logs in.
    pub fn user(&self) -> &Text
        ensures { result.now ≡ self.now.user }
    {
        &self.user
    }

    /// The commands, in order.
    pub fn commands(&self) -> &[Command]
        ensures commands { result.now ≡ self.now.commands }
        ensures limits { IsWithinLimits self.now }
    {
        self.commands.as_slice()
    }
}

/// A script: at most 16 sessions, which run side by side. A contract sees the list of them.
#[derive(Debug, Drop)]
pub struct Script {
    sessions: Vec<SessionScript>,
}

impl Model for Script {
    ghost use Rattle.std.specs.Prelude.{◌≤◌, List, length};
    ghost use Rattle.shell_words.specs.declared.limits.TheConstants.{SESSION_LIMIT};
    ghost use Rattle.shell_words.specs.Script.{SessionCommands};

    ghost Value = { List SessionCommands };

    ghost view = { λ script. script.sessions.items };

    ghost invariant = { λ script. length script.sessions.items ≤ SESSION_LIMIT };
}

impl Script {
    /// The script of these sessions. It keeps the vector, so it takes no memory.
    pub fn of(sessions: Vec<SessionScript>) -> Script
        requires { length sessions.items ≤ SESSION_LIMIT }
        ensures { result ≡ sessions.items }
    {
        Script { sessions }
    }

    /// The sessions, in order.
    pub fn sessions(&self) -> &[SessionScript]
        ensures sessions { result.now ≡ self.now }
        ensures limit { length self.now ≤ SESSION_LIMIT }
    {
        self.sessions.as_slice()
    }
}
