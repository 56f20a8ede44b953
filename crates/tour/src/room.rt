// The rooms that the lots come through, in the order of their numbers in the plan.
use std::fmt;

#[derive(Clone, Copy)]
pub enum Room {
    Intake,
    Drier,
    Sealing,
    ColdRoom,
    Freezer,
}

impl From<Room> for u8 {
    fn from(room: Room) -> u8 {
        room as u8
    }
}

impl fmt::Display for Room {
    fn fmt<W: fmt::Write>(&self, f: &mut fmt::Formatter<W>) -> fmt::Result {
        f.pad(match self {
            Room::Intake => "intake",
            Room::Drier => "drier",
            Room::Sealing => "sealing",
            Room::ColdRoom => "cold room",
            Room::Freezer => "freezer",
        })
    }
}
