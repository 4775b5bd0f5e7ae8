//! A sensor hub on this library: a bus with a controller and a sensor. It serves alarms by a policy of its own, and counts
//! the wire's symbols by a tap of its own.
//!
//! `alarm` is the hub's work, `policy` decides on requests, `tap` counts symbols, and `fault` says why the hub gives up.
#![tactic(auto)]

mod alarm;
mod fault;
mod policy;
mod tap;

use crate::alarm::alarm;
use crate::fault::HubFault;
use crate::policy::Quota;
use crate::tap::Count;
use std::process::ExitCode;

/// Prints the alarm's result, or why there was none.
fn main(rt: HostRuntime) -> ExitCode {
    match tell(&rt) {
        Ok(()) => ExitCode::SUCCESS,
        Err(fault) => {
            let _ = rt.eprint(&fault);
            ExitCode::FAILURE
        }
    }
}

/// Prints each record of the alarms, one of which is accepted, and the number of their wire's symbols.
fn tell<R: Print + AllocGlobal>(rt: &R) -> Result<(), HubFault> {
    let (mut quota, mut wire) = (Quota::new(1), Count::default());
    let records = alarm(rt.alloc(), &mut quota, &mut wire)?;
    for record in records.as_slice() {
        let (slot, number) = (record.slot.index(), record.number);
        let (at, byte) = (record.at.get(), record.byte.unwrap_or(0));
        println!(rt; "slot {slot}, raise {number}, at {at:02X}: byte {byte:02X}")?;
    }
    println!(rt; "symbols {0}, refused {1}", wire.symbols, quota.refused)?;
    Ok(())
}

#[cfg(test)]
mod tests {
    use super::alarm::alarm;
    use super::policy::Quota;
    use super::tap::Count;
    use std::test::Fail;

    // one alarm is accepted, the second is beyond the quota
    #[test]
    fn the_first_alarm_is_recorded(rt: HostRuntime) -> Result<(), Fail> {
        let (mut quota, mut wire) = (Quota::new(1), Count::default());
        let records = alarm(rt.alloc(), &mut quota, &mut wire)?;
        assert!(rt; records.as_slice().len() == 1);
        assert!(rt; quota.refused == 1);
        let record = records.as_slice().first().ok_or("a record")?;
        assert!(rt; record.slot.index() == 1 && record.number == 1);
        assert!(rt; record.at.get() == 0x09 && record.byte == Some(0x11));
        Ok(())
    }
}
