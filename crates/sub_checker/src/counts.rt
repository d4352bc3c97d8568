//! Counts of the contents of the PES packets received so far.
ghost use Rattle.std.specs.Prelude.{◌≡◌, ◌≤◌};
ghost use Rattle.sub_checker.specs.Checker.{with_open_frame, no_counts};

/// Counts of frames and headers of the page received so far, and of the packets of an open frame.
#[derive(Clone, Copy)]
pub(crate) struct Counts {
    /// The number of PES packets that were not skipped; if `within` is not 0, consecutive ones of
    /// one frame count once. Frames without a PES packet do not count.
    pub frames: u32,
    /// The number of headers of the page.
    pub headers: u64,
    /// The number of headers of the page before the last frame, while it is open.
    pub headers_before: u64,
    /// The number of Teletext packets in the last frame, while it is open.
    pub packets: u32,
    /// Whether the last frame has not ended yet.
    pub is_open: bool,
}

impl Counts {
    /// Returns the counts before the first PES packet: all are 0.
    pub fn new() -> Self
        ensures { result ≡ no_counts }
    {
        Counts {
            frames: 0,
            headers: 0,
            headers_before: 0,
            packets: 0,
            is_open: false,
        }
    }

    /// Notes that the last frame has not ended yet. It has `headers` headers of the page and
    /// `packets` packets so far. Not inlined into the code that runs for each frame, which would
    /// then keep both counts of headers.
    #[inline(never)]
    pub fn leave_open(&mut self, headers: u8, packets: u32)
        requires { headers ≤ self.old.headers }
        ensures { self.new ≡ with_open_frame headers packets self.old }
    {
        self.headers_before = self.headers - u64::from(headers);
        self.packets = packets;
        self.is_open = true;
    }
}
