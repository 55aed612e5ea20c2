// The registers of an ATA command, and the Count codes of the conditions.
#![tactic(auto)]

ghost use Rattle.std.specs.Prelude.{◌≡◌};
ghost use Rattle.registers.specs.Commands.{ata_command, named, count_code};

use conditions::Condition;

// The registers of one ATA command. LBA comes as 32 bits.
#[derive(Clone, Copy, PartialEq, Eq)]
pub struct Registers {
    pub command: u8,
    pub feature: u8,
    pub count: u8,
    pub lba: u32,
}

// What Count names.
// Stays an enum with a case for what is not listed: document 01's match over the codes and its refused ranges has that case.
#[derive(Clone, Copy, PartialEq, Eq)]
pub enum Named {
    One(Condition),
    Every,
    Unlisted,
}

// Command, Feature, Count, LBA.
pub fn ata_command(command: u8, feature: u8, count: u8, lba: u32) -> Registers
    ensures { result ≡ ata_command command feature count lba }
{
    Registers {
        command,
        feature,
        count,
        lba,
    }
}

// The listed Count codes and the ranges of unlisted ones.
pub fn named_by(count: u8) -> Named
    ensures { result ≡ named count }
{
    match count {
        0x00 => Named::One(Condition::StandbyZ),
        0x01 => Named::One(Condition::StandbyY),
        0x02..=0x80 => Named::Unlisted,
        0x81 => Named::One(Condition::IdleA),
        0x82 => Named::One(Condition::IdleB),
        0x83 => Named::One(Condition::IdleC),
        0x84..=0xFE => Named::Unlisted,
        0xFF => Named::Every,
    }
}

// The Count code that names a condition.
// Stays a match: a table of the papers, a case for each condition.
pub fn count_code(c: Condition) -> u8
    ensures { result ≡ count_code c }
{
    match c {
        Condition::IdleA => 0x81,
        Condition::IdleB => 0x82,
        Condition::IdleC => 0x83,
        Condition::StandbyY => 0x01,
        Condition::StandbyZ => 0x00,
    }
}
