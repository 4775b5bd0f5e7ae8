/// What a controller asks a target for: the codes GET.. of I3C Basic 5.1.9.3. A target tells each in bytes, the most
/// significant first.
#[derive(Clone, Copy, Debug, PartialEq, Eq)]
pub enum Datum {
    /// Its provisioned ID, six bytes (GETPID, I3C Basic 5.1.9.3.12).
    Pid,
    /// Its bus characteristics, one byte (GETBCR, I3C Basic 5.1.9.3.13).
    Bcr,
    /// Its device characteristics, one byte (GETDCR, I3C Basic 5.1.9.3.14).
    Dcr,
    /// Whether an interrupt of it waits, two bytes (GETSTATUS, I3C Basic 5.1.9.3.15).
    Status,
    /// How many bytes it takes of a private write, two bytes (GETMWL, I3C Basic 5.1.9.3.5).
    WriteLength,
    /// How many bytes it gives to a private read, two bytes, and a third with those of an interrupt where it has any
    /// (GETMRL, I3C Basic 5.1.9.3.6).
    ReadLength,
    /// The limits of its speed, two bytes (GETMXDS, I3C Basic 5.1.9.3.18).
    Speed,
    /// Its optional capabilities, two bytes (GETCAPS, I3C Basic 5.1.9.3.19).
    Capabilities,
}

/// Which transfers a maximum length is for.
#[derive(Clone, Copy, Debug, PartialEq, Eq)]
pub enum Direction {
    /// Private writes (SETMWL, I3C Basic 5.1.9.3.5).
    Write,
    /// Private reads (SETMRL, I3C Basic 5.1.9.3.6).
    Read,
}
