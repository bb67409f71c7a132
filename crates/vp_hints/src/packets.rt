//! The packets of an IVF file, counted as its bytes pass by.

ghost use Rattle.std.specs.Prelude.{◌≡◌, ◌<◌, ◌≤◌, ◌+◌, ◌*◌, ◌/◌, ◌^◌, ◌++◌, ℕ, List, length};
ghost use Rattle.vp_hints.specs.Packets.{count_after, counted_after, ends_packet, first_count};
ghost use Rattle.vp_hints.specs.Packets.{place_after, place_behind_head, time_at, time_behind, time_with};
ghost use Rattle.vp_hints.specs.declared.packets.Place.{Place};

/// Where the next byte of an IVF file belongs.
#[derive(Clone, Copy, Debug, PartialEq, Eq)]
pub enum Place {
    /// The file's head, of which this many bytes are left.
    FileHead(u8),
    /// A packet's head of 12 bytes: how many of them have passed, and the size that the first four state so far.
    PacketHead(u8, u32),
    /// A packet, of which this many bytes are left.
    Packet(u32),
}

/// The place in an IVF file, the number of packets that have passed whole, and the time of the last one. The number
/// saturates at `u64::MAX`.
#[derive(Clone, Copy, Debug, PartialEq, Eq)]
pub struct PacketCount {
    /// Where the next byte belongs.
    pub place: Place,
    /// The number of whole packets.
    pub whole: u64,
    /// The time that the last packet's head states; 0 before the first. It is whole once that head has passed.
    pub time: u64,
}

impl PacketCount {
    /// The count before a file's first byte.
    pub fn new() -> PacketCount
        ensures { result ≡ first_count }
    {
        PacketCount {
            place: Place::FileHead(32),
            whole: 0,
            time: 0,
        }
    }

    /// Counts the packets that end in these bytes.
    pub fn pass(&mut self, bytes: &[u8])
        ensures { self.new ≡ counted_after self.old bytes.now }
    {
        let mut rest = bytes;
        while !rest.is_empty() {
            rest = self.pass_some(rest);
        }
    }

    // Counts the next byte, or a packet's head, and the bytes that then are inside a packet, and returns the others.
    fn pass_some<'a>(&mut self, bytes: &'a [u8]) -> &'a [u8]
        requires { 0 < length bytes.now }
        ensures passed { counted_after self.new result.now ≡ counted_after self.old bytes.now }
        ensures fewer { length result.now < length bytes.now }
    {
        let others = self.pass_first(bytes);
        self.pass_inside(others)
    }

    // Counts a packet's head if the bytes begin with one, or else the next byte, and returns the others.
    fn pass_first<'a>(&mut self, bytes: &'a [u8]) -> &'a [u8]
        requires { 0 < length bytes.now }
        ensures passed { counted_after self.new result.now ≡ counted_after self.old bytes.now }
        ensures fewer { length result.now < length bytes.now }
    {
        match self.place {
            Place::PacketHead(0, 0) if bytes.len() >= 12 => {
                let (head, others) = bytes.split_at(12);
                self.pass_head(head);
                others
            }
            _ => {
                self.pass_byte(bytes[0]);
                bytes.split_at(1).1
            }
        }
    }

    // Counts the head of a packet at once.
    fn pass_head(&mut self, head: &[u8])
        requires first { self.old.place ≡ Place.PacketHead 0 0 }
        requires size { length head.now ≡ 12 }
        ensures { self.new ≡ counted_after self.old head.now }
    {
        let size = shifted(0, head[0]);
        let size = shifted(size, head[1]);
        let size = shifted(size, head[2]);
        let size = shifted(size, head[3]);
        let time = time_behind(self.time, head.split_at(4).1);
        if size == 0 {
            self.whole = self.whole.saturating_add(1);
        }
        self.time = time;
        self.place = place_behind_head(size);
    }

    // Counts the bytes inside a packet, but not its last one, and returns the others. They need not be looked at.
    fn pass_inside<'a>(&mut self, bytes: &'a [u8]) -> &'a [u8]
        ensures passed { (inside : List ℕ) × (bytes.now ≡ inside ++ result.now)
            × (self.new ≡ counted_after self.old inside) }
        ensures fewer { length result.now ≤ length bytes.now }
    {
        let Place::Packet(left) = self.place else {
            return bytes;
        };
        let inside = bytes.len().min(left.saturating_sub(1) as usize);
        self.place = Place::Packet(left - inside as u32);
        bytes.split_at(inside).1
    }

    fn pass_byte(&mut self, byte: u8)
        ensures { self.new ≡ count_after self.old byte }
    {
        if ends_packet(self.place) {
            self.whole = self.whole.saturating_add(1);
        }
        self.time = time_at(self.place, self.time, byte);
        self.place = place_after(self.place, byte);
    }
}

// Whether the next byte is the last one of a packet.
fn ends_packet(place: Place) -> bool
    ensures { result ≡ ends_packet place }
{
    match place {
        Place::FileHead(_) => false,
        Place::PacketHead(passed, size) => passed == 11 && size == 0,
        Place::Packet(left) => left < 2,
    }
}

// The place after the next byte.
fn place_after(place: Place, byte: u8) -> Place
    ensures { result ≡ place_after place byte }
{
    match place {
        Place::FileHead(left) if left < 2 => Place::PacketHead(0, 0),
        Place::FileHead(left) => Place::FileHead(left - 1),
        Place::PacketHead(passed, size) if passed < 4 => {
            Place::PacketHead(passed + 1, shifted(size, byte))
        }
        Place::PacketHead(passed, size) if passed < 11 => Place::PacketHead(passed + 1, size),
        Place::PacketHead(_, size) => place_behind_head(size),
        Place::Packet(left) if left < 2 => Place::PacketHead(0, 0),
        Place::Packet(left) => Place::Packet(left - 1),
    }
}

// A size with its next byte, which is shifted in from above.
fn shifted(size: u32, byte: u8) -> u32
    ensures { result ≡ size / 256 + byte * 2 ^ 24 }
{
    (size >> 8) + (u32::from(byte) << 24)
}

// The place after the head of a packet of this size.
fn place_behind_head(size: u32) -> Place
    ensures { result ≡ place_behind_head size }
{
    if size == 0 {
        Place::PacketHead(0, 0)
    } else {
        Place::Packet(size)
    }
}

// The time of the last packet's head so far, after the next byte.
fn time_at(place: Place, time: u64, byte: u8) -> u64
    ensures { result ≡ time_at place time byte }
{
    match place {
        Place::PacketHead(passed, _) if 4 <= passed => time_with(time, byte),
        _ => time,
    }
}

// A time with its next byte, which is shifted in from above.
fn time_with(time: u64, byte: u8) -> u64
    ensures { result ≡ time / 256 + byte * 2 ^ 56 }
{
    (time >> 8) + (u64::from(byte) << 56)
}

// A time with some bytes more.
fn time_behind(start: u64, bytes: &[u8]) -> u64
    ensures { result ≡ time_behind start bytes.now }
{
    let mut time = start;
    let mut rest = bytes;
    while !rest.is_empty() {
        time = time_with(time, rest[0]);
        rest = rest.split_at(1).1;
    }
    time
}
