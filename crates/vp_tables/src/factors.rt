//! Dequantisation factors, by quantiser index.

ghost use Rattle.std.specs.Prelude.{◌≡◌, ◌<◌, ◌≤◌};
ghost use Rattle.vp_tables.specs.Tables.{dc_factor, ac_factor};

/// DC factors, by quantiser index (RFC 6386, chapter 14.1).
pub static DC_FACTORS: [u16; 128] = [
    4, 5, 6, 7, 8, 9, 10, 10, 11, 12, 13, 14, 15, 16, 17, 17, 18, 19, 20, 20, 21, 21, 22, 22, 23,
    23, 24, 25, 25, 26, 27, 28, 29, 30, 31, 32, 33, 34, 35, 36, 37, 37, 38, 39, 40, 41, 42, 43, 44,
    45, 46, 46, 47, 48, 49, 50, 51, 52, 53, 54, 55, 56, 57, 58, 59, 60, 61, 62, 63, 64, 65, 66, 67,
    68, 69, 70, 71, 72, 73, 74, 75, 76, 76, 77, 78, 79, 80, 81, 82, 83, 84, 85, 86, 87, 88, 89, 91,
    93, 95, 96, 98, 100, 101, 102, 104, 106, 108, 110, 112, 114, 116, 118, 122, 124, 126, 128, 130,
    132, 134, 136, 138, 140, 143, 145, 148, 151, 154, 157,
];

/// AC factors, by quantiser index (RFC 6386, chapter 14.1).
pub static AC_FACTORS: [u16; 128] = [
    4, 5, 6, 7, 8, 9, 10, 11, 12, 13, 14, 15, 16, 17, 18, 19, 20, 21, 22, 23, 24, 25, 26, 27, 28,
    29, 30, 31, 32, 33, 34, 35, 36, 37, 38, 39, 40, 41, 42, 43, 44, 45, 46, 47, 48, 49, 50, 51, 52,
    53, 54, 55, 56, 57, 58, 60, 62, 64, 66, 68, 70, 72, 74, 76, 78, 80, 82, 84, 86, 88, 90, 92, 94,
    96, 98, 100, 102, 104, 106, 108, 110, 112, 114, 116, 119, 122, 125, 128, 131, 134, 137, 140,
    143, 146, 149, 152, 155, 158, 161, 164, 167, 170, 173, 177, 181, 185, 189, 193, 197, 201, 205,
    209, 213, 217, 221, 225, 229, 234, 239, 245, 249, 254, 259, 264, 269, 274, 279, 284,
];

#[tactic(auto, unfolding(crate::specs::Tables::dc_factor))]
fn dc_entry(index: u8) -> u16
    requires { index < 128 }
    ensures { result ≡ dc_factor index }
{
    DC_FACTORS[index as usize]
}

/// The DC factor of a quantiser index: 4 to 157.
#[tactic(auto, using(crate::proofs::Bounds::factor_bounds))]
pub fn dc_factor(index: u8) -> u16
    requires { index < 128 }
    ensures value { result ≡ dc_factor index }
    ensures least { 4 ≤ result }
    ensures greatest { result ≤ 157 }
{
    dc_entry(index)
}

#[tactic(auto, unfolding(crate::specs::Tables::ac_factor))]
fn ac_entry(index: u8) -> u16
    requires { index < 128 }
    ensures { result ≡ ac_factor index }
{
    AC_FACTORS[index as usize]
}

/// The AC factor of a quantiser index: 4 to 284.
#[tactic(auto, using(crate::proofs::Bounds::factor_bounds))]
pub fn ac_factor(index: u8) -> u16
    requires { index < 128 }
    ensures value { result ≡ ac_factor index }
    ensures least { 4 ≤ result }
    ensures greatest { result ≤ 284 }
{
    ac_entry(index)
}
