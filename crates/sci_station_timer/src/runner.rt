//! A station that is driven a round at a time.

ghost use Rattle.std.specs.Prelude.{◌≤◌, length};
ghost use Rattle.sci_words.specs.declared.limits.TheConstants.{MAX_OPERATIONS};
ghost use Rattle.sci_drive.specs.Driving.{HasSubmittedNothing, IsDriven};
ghost use Rattle.sci_station.specs.Station.{node_in};

use sci_drive::{Driver, Issuing, OpenGate, new_drivers_may_drive};
use sci_station::Station;
use sci_words::Op;
use std::alloc::AllocError;

/// A station and the driver that has driven it.
#[derive(Drop)]
pub struct Runner<'a> {
    station: Station,
    driver: Driver<'a>,
}

impl<'a> Runner<'a> {
    /// A station that has submitted nothing, and its script of at most 65,536 operations. The caller sees to both.
    pub fn new(station: Station, script: &'a [Op]) -> Runner<'a>
        requires fresh { HasSubmittedNothing (node_in station) }
        requires few { length script.now ≤ MAX_OPERATIONS }
        ensures driven { IsDriven result.driver (node_in result.station) }
    {
        new_drivers_may_drive();
        Runner {
            station,
            driver: Driver::new(script, Issuing::Ahead),
        }
    }

    /// Does one round. Whether the whole script is answered then.
    pub fn round(&mut self) -> Result<bool, AllocError>
        requires driven { IsDriven self.old.driver (node_in self.old.station) }
        ensures driven { IsDriven self.new.driver (node_in self.new.station) }
    {
        let _round = self.driver.round(&mut self.station, &mut OpenGate)?;
        Ok(self.driver.is_answered())
    }
}
