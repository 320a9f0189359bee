//! The commands of packets.

ghost use Rattle.std.specs.Prelude.{◌≡◌, ◌≤◌, ◌||◌, IfSome};
ghost use Rattle.sci_packets.specs.Table.{command_name, command_number, command_with, may_name, must_name, packet_bytes as packet_bytes_of};
ghost use Rattle.sci_packets.specs.Table.{takes_contents as takes_contents_of};

/// What a packet asks or answers, without what it carries, which `Body` says. First the requests, then the answers, each in
/// the order of their numbers.
#[derive(Clone, Copy, Debug, PartialEq, Eq)]
pub enum Command {
    Mread,
    Cread,
    Purge,
    Roll,
    Wback,
    Setback,
    Fread,
    Claim,
    Clear,
    Mdata,
    Mgone,
    Cdata,
    Purged,
    Rolled,
    Wbok,
    Wbno,
    Told,
    Busy,
    Fdata,
}

impl Command {
    /// All commands, in the order in which lists show them.
    pub const ALL: [Command; 19] = [
        Command::Mread,
        Command::Fread,
        Command::Cread,
        Command::Claim,
        Command::Clear,
        Command::Purge,
        Command::Roll,
        Command::Wback,
        Command::Setback,
        Command::Mdata,
        Command::Mgone,
        Command::Fdata,
        Command::Cdata,
        Command::Purged,
        Command::Rolled,
        Command::Wbok,
        Command::Wbno,
        Command::Told,
        Command::Busy,
    ];

    /// The number of the command, as a header has it. The numbers are this project's own: the requests are 0x0001 to 0x0009,
    /// the answers 0x0101 to 0x010A.
    pub fn number(self) -> u16
        ensures number { result ≡ command_number self }
    {
        // Arithmetic, since a match of all commands compiles to a jump through a table.
        let place = self as u16;
        let first_answer = Command::Mdata as u16;
        if place < first_answer {
            0x0001 + place
        } else {
            0x0101 + (place - first_answer)
        }
    }

    /// The command with this number, or None if there is none.
    #[tactic(auto, unfolding(crate::specs::Table::command_with))]
    pub fn with_number(number: u16) -> Option<Command>
        ensures command { result ≡ command_with number }
        ensures number { IfSome result (λ command. command_number command ≡ number) }
    {
        // Two dense matches compile to two comparisons, one sparse match to a jump through a table.
        if number < 0x0100 {
            match number {
                0x0001 => Some(Command::Mread),
                0x0002 => Some(Command::Cread),
                0x0003 => Some(Command::Purge),
                0x0004 => Some(Command::Roll),
                0x0005 => Some(Command::Wback),
                0x0006 => Some(Command::Setback),
                0x0007 => Some(Command::Fread),
                0x0008 => Some(Command::Claim),
                0x0009 => Some(Command::Clear),
                _ => None,
            }
        } else {
            match number {
                0x0101 => Some(Command::Mdata),
                0x0102 => Some(Command::Mgone),
                0x0103 => Some(Command::Cdata),
                0x0104 => Some(Command::Purged),
                0x0105 => Some(Command::Rolled),
                0x0106 => Some(Command::Wbok),
                0x0107 => Some(Command::Wbno),
                0x0108 => Some(Command::Told),
                0x0109 => Some(Command::Busy),
                0x010A => Some(Command::Fdata),
                _ => None,
            }
        }
    }

    /// The name of the command, as `mread`.
    #[tactic(auto, unfolding(crate::specs::Table::command_name))]
    pub fn name(self) -> &'static str
        ensures { result.now ≡ command_name self }
    {
        match self {
            Command::Mread => "mread",
            Command::Cread => "cread",
            Command::Purge => "purge",
            Command::Roll => "roll",
            Command::Wback => "wback",
            Command::Setback => "setback",
            Command::Fread => "fread",
            Command::Claim => "claim",
            Command::Clear => "clear",
            Command::Mdata => "mdata",
            Command::Mgone => "mgone",
            Command::Cdata => "cdata",
            Command::Purged => "purged",
            Command::Rolled => "rolled",
            Command::Wbok => "wbok",
            Command::Wbno => "wbno",
            Command::Told => "told",
            Command::Busy => "busy",
            Command::Fdata => "fdata",
        }
    }

    /// Whether its packets have contents.
    pub fn takes_contents(self) -> bool
        ensures { result ≡ takes_contents_of self }
    {
        matches!(
            self,
            Command::Wback | Command::Mdata | Command::Cdata | Command::Fdata
        )
    }

    /// Whether its packets have an identifier, which may be none.
    pub(crate) fn names(self) -> bool
        ensures { result ≡ (must_name self || may_name self) }
    {
        matches!(
            self,
            Command::Roll | Command::Setback | Command::Mgone | Command::Purged | Command::Fdata
        )
    }

    /// The bytes of a packet with this command: 88 if it has contents, else 16.
    pub fn packet_bytes(self) -> usize
        ensures bytes { result ≡ packet_bytes_of self }
        ensures few { result ≤ 88 }
    {
        if self.takes_contents() { 88 } else { 16 }
    }
}
