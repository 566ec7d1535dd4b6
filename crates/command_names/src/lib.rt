//! The words of the commands that are known, and their names.
#![tactic(auto)]

ghost use Rattle.std.specs.Prelude.{◌≡◌};
ghost use Rattle.wire_rules.specs.Commands as commands;

use wire_rules::Name;

/// The commands that are known.
const NAMES: [Name; 14] = [
    Name::Version,
    Name::Verack,
    Name::WtxidRelay,
    Name::SendTxRcncl,
    Name::ReqRecon,
    Name::Sketch,
    Name::ReqSketchExt,
    Name::ReconcilDiff,
    Name::Inv,
    Name::GetData,
    Name::NotFound,
    Name::Tx,
    Name::Ping,
    Name::Pong,
];

/// The word of a command, as texts have it: 2 to 12 lower-case letters.
#[tactic(auto, unfolding(wire_rules::specs::Commands::word_of))]
pub fn word_of(name: Name) -> &'static [u8]
    ensures { result.now ≡ commands.word_of name }
{
    match name {
        Name::Version => b"version",
        Name::Verack => b"verack",
        Name::WtxidRelay => b"wtxidrelay",
        Name::SendTxRcncl => b"sendtxrcncl",
        Name::ReqRecon => b"reqrecon",
        Name::Sketch => b"sketch",
        Name::ReqSketchExt => b"reqsketchext",
        Name::ReconcilDiff => b"reconcildiff",
        Name::Inv => b"inv",
        Name::GetData => b"getdata",
        Name::NotFound => b"notfound",
        Name::Tx => b"tx",
        Name::Ping => b"ping",
        Name::Pong => b"pong",
    }
}

/// The command field of a frame: the word, filled up with NUL.
#[tactic(auto, unfolding(wire_rules::specs::Commands::word_of))]
pub fn command_of(name: Name) -> [u8; 12]
    ensures { result ≡ commands.command_of name }
{
    match name {
        Name::Version => *b"version\0\0\0\0\0",
        Name::Verack => *b"verack\0\0\0\0\0\0",
        Name::WtxidRelay => *b"wtxidrelay\0\0",
        Name::SendTxRcncl => *b"sendtxrcncl\0",
        Name::ReqRecon => *b"reqrecon\0\0\0\0",
        Name::Sketch => *b"sketch\0\0\0\0\0\0",
        Name::ReqSketchExt => *b"reqsketchext",
        Name::ReconcilDiff => *b"reconcildiff",
        Name::Inv => *b"inv\0\0\0\0\0\0\0\0\0",
        Name::GetData => *b"getdata\0\0\0\0\0",
        Name::NotFound => *b"notfound\0\0\0\0",
        Name::Tx => *b"tx\0\0\0\0\0\0\0\0\0\0",
        Name::Ping => *b"ping\0\0\0\0\0\0\0\0",
        Name::Pong => *b"pong\0\0\0\0\0\0\0\0",
    }
}

/// The name of a command field, where it is known.
pub fn name_at(command: &[u8; 12]) -> Option<Name>
    ensures { result ≡ commands.name_at command.now }
{
    NAMES
        .iter()
        .copied()
        .find(|name| command_of(*name) == *command)
}

/// The name of a word, where it is known.
pub fn name_of_word(word: &[u8]) -> Option<Name>
    ensures { result ≡ commands.name_of_word word.now }
{
    NAMES.iter().copied().find(|name| word_of(*name) == word)
}
