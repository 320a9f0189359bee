//! Laws of stations that are driven: each is the contract of a function that does nothing.

ghost use Rattle.std.specs.Prelude.{ℕ, All, map};
ghost use Rattle.atomic_table.specs.Seated.{TableId};
ghost use Rattle.sci_core.specs.Size.{Size};
ghost use Rattle.sci_drive.specs.Driving.{HasSubmittedNothing};
ghost use Rattle.sci_lanes.specs.Ends.{opening_ends};
ghost use Rattle.sci_station.specs.Station.{node_in, opening_station};

/// The stations of a new fabric have submitted nothing, so each may be driven.
pub fn new_stations_are_fresh()
    ensures { (table : TableId) (size : Size) (count : ℕ) → All
        (λ station. HasSubmittedNothing (node_in station)) (map opening_station (opening_ends table size count)) }
{}
