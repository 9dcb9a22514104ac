//! The version in which a cache opens a connection (RFC 8210 section 7).
ghost use Rattle.std.specs.Prelude.{◌≡◌, ◌<◌, length};
ghost use Rattle.upstreams.specs.Versions.{opened_by, opened_on, typed, unopened};

/// How far the first PDU that is no Serial Notify has come on a connection. Serial Notifies before it are ignored, whatever their version.
#[derive(Clone, Copy, Debug, PartialEq, Eq)]
pub(crate) struct Opening {
    /// The version of that PDU, once its type has come.
    pub(crate) version: Option<u8>,
    /// The version of a PDU whose type has not come.
    pub(crate) begun: Option<u8>,
    /// How many bytes of a Serial Notify are still to come.
    pub(crate) left: u8,
}

impl Opening {
    /// No byte has come.
    pub(crate) fn new() -> Opening
        ensures { result ≡ unopened }
    {
        Opening {
            version: None,
            begun: None,
            left: 0,
        }
    }

    /// These bytes come.
    pub(crate) fn read(&mut self, bytes: &[u8])
        ensures { self.new ≡ opened_on self.old bytes.now }
    {
        if self.version.is_some() {
            return;
        }
        let mut rest = bytes;
        while !rest.is_empty() {
            rest = self.next(rest);
        }
    }

    /// The first of these bytes comes. The others are returned.
    fn next<'a>(&mut self, bytes: &'a [u8]) -> &'a [u8]
        requires { 0 < length bytes.now }
        ensures on { opened_on self.new result.now ≡ opened_on self.old bytes.now }
        ensures less { length result.now < length bytes.now }
    {
        self.step(bytes[0]);
        &bytes[1..]
    }

    /// This byte comes.
    fn step(&mut self, byte: u8)
        ensures { self.new ≡ opened_by self.old byte }
    {
        if self.version.is_some() {
            return;
        }
        if self.left > 0 {
            self.left -= 1;
            return;
        }
        match self.begun {
            None => self.begun = Some(byte),
            Some(version) => self.judge(version, byte),
        }
    }

    /// The type of the PDU of this version comes.
    fn judge(&mut self, version: u8, kind: u8)
        ensures { self.new ≡ typed version kind self.old }
    {
        if kind == 0 {
            self.begun = None;
            self.left = 10;
            return;
        }
        self.version = Some(version);
    }
}
