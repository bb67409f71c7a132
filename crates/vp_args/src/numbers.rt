//! The numbers that options give.

ghost use Rattle.std.specs.Prelude.{◌≡◌, ◌^◌, IfErr, IfOk, IfSome, None, length};
ghost use Rattle.clap.specs.Words.{found_of, rows_of};
ghost use Rattle.clap.specs.Walk.{first_of};
ghost use Rattle.vp_args.specs.Args.{AreFileLimits, AreNoFileLimits, IsDecimal, IsMisnumbered, IsNoDecimal};
ghost use Rattle.vp_args.specs.Args.{IsNumber, IsInvalidValue};
ghost use Rattle.vp_args.specs.Tables.{AreMissed, AreNumbers, IsMissed, IsNumberOf};

use crate::args::{Refusal, text_of};
use crate::file_limits::FileLimits;
use clap::ArgMatches;

/// An option whose value is a number.
pub(crate) struct Number {
    pub(crate) name: &'static str,
    pub(crate) usual: u32,
    pub(crate) least: u32,
    pub(crate) most: u32,
    pub(crate) refusal: &'static str,
}

/// The numbers of `encode`, with the limits on files.
pub(crate) const ENCODE_NUMBERS: [Number; 9] = [
    Number {
        name: "qi",
        usual: 32,
        least: 0,
        most: 255,
        refusal: "--qi is a number from 0 to 127",
    },
    Number {
        name: "filter",
        usual: 16,
        least: 0,
        most: 255,
        refusal: "--filter is a number from 0 to 63",
    },
    Number {
        name: "sharpness",
        usual: 0,
        least: 0,
        most: 255,
        refusal: "--sharpness is a number from 0 to 7",
    },
    Number {
        name: "key-every",
        usual: 64,
        least: 0,
        most: u32::MAX,
        refusal: "--key-every is a number from 1 to 4294967295",
    },
    Number {
        name: "golden-every",
        usual: 0,
        least: 0,
        most: u32::MAX,
        refusal: "--golden-every is a number from 0 to 4294967295",
    },
    Number {
        name: "range",
        usual: 16,
        least: 0,
        most: 255,
        refusal: "--range is a number from 0 to 64",
    },
    Number {
        name: "partitions",
        usual: 1,
        least: 0,
        most: 255,
        refusal: "--partitions is 1, 2, 4 or 8",
    },
    MAX_PACKETS,
    MAX_PIXELS,
];

// The limits on files.
const LIMIT_NUMBERS: &[Number] = &[MAX_PACKETS, MAX_PIXELS];

const MAX_PACKETS: Number = Number {
    name: "max-packets",
    usual: 1_048_576,
    least: 1,
    most: 16_777_216,
    refusal: "--max-packets is a number from 1 to 16777216",
};

const MAX_PIXELS: Number = Number {
    name: "max-pixels",
    usual: 16_777_216,
    least: 1,
    most: 268_402_689,
    refusal: "--max-pixels is a number from 1 to 268402689",
};

/// The quantiser index of `picture`.
pub(crate) const PICTURE_QI: &Number = &Number {
    name: "qi",
    usual: 8,
    least: 0,
    most: 127,
    refusal: "--qi is a number from 0 to 127",
};

/// The number of cached pictures.
pub(crate) const CACHE: Number = Number {
    name: "cache",
    usual: 16,
    least: 1,
    most: 4096,
    refusal: "--cache is a number from 1 to 4096",
};

/// The numbers of `serve` for many connections at once.
pub(crate) const SERVE_NUMBERS: [Number; 6] = [
    Number {
        name: "max-connections",
        usual: 64,
        least: 1,
        most: 64,
        refusal: "--max-connections is a number from 1 to 64",
    },
    Number {
        name: "idle-timeout",
        usual: 30,
        least: 1,
        most: 86_400,
        refusal: "--idle-timeout is a number of seconds from 1 to 86400",
    },
    Number {
        name: "poll-interval",
        usual: 100,
        least: 1,
        most: 60_000,
        refusal: "--poll-interval is a number of milliseconds from 1 to 60000",
    },
    Number {
        name: "cursors",
        usual: 16,
        least: 0,
        most: 64,
        refusal: "--cursors is a number from 0 to 64",
    },
    Number {
        name: "connections",
        usual: u32::MAX,
        least: 0,
        most: u32::MAX,
        refusal: "--connections is a decimal number",
    },
    CACHE,
];

/// Returns the numbers of a table.
pub(crate) fn numbers<const N: usize>(
    found: &ArgMatches<'_>,
    table: &[Number],
) -> Result<[u32; N], Refusal>
    requires { length table.now ≡ N }
    ensures numbers { IfOk result (λ all. AreNumbers (rows_of (found_of found.now)) table.now all 0) }
    ensures refusal { IfErr result (λ r. IsInvalidValue r × AreMissed (rows_of (found_of found.now)) table.now) }
{
    let mut all = [0; N];
    for i in 0..N {
        all[i] = number_of(found, &table[i])?;
    }
    Ok(all)
}

/// Returns the number of an option, or its default.
pub(crate) fn number_of(found: &ArgMatches<'_>, option: &Number) -> Result<u32, Refusal>
    ensures number { IfOk result (IsNumberOf (rows_of (found_of found.now)) option.now) }
    ensures refusal { IfErr result (λ r. IsInvalidValue r
        × IsMissed option.now (first_of option.now.name.now (rows_of (found_of found.now)))) }
{
    match count(found, option.name, option.usual) {
        Some(number) if option.least <= number && number <= option.most => Ok(number),
        _ => Err(Refusal::Value(option.refusal)),
    }
}

/// Returns the 32-bit number of an option, or its default.
pub(crate) fn count(found: &ArgMatches<'_>, option: &str, usual: u32) -> Option<u32>
    ensures some { IfSome result (IsNumber (first_of option.now (rows_of (found_of found.now))) usual) }
    ensures none { result ≡ None → IsMisnumbered (2 ^ 32) (first_of option.now (rows_of (found_of found.now))) }
{
    match text_of(found, option) {
        Some(text) => decimal(text),
        None => Some(usual),
    }
}

/// Returns the limits that `--max-packets` and `--max-pixels` give.
pub(crate) fn file_limits(found: &ArgMatches<'_>) -> Result<FileLimits, Refusal>
    ensures limits { IfOk result (AreFileLimits (rows_of (found_of found.now))) }
    ensures refusal { IfErr result (λ r. IsInvalidValue r × AreNoFileLimits (rows_of (found_of found.now))) }
{
    let [packets, pixels] = numbers::<2>(found, LIMIT_NUMBERS)?;
    Ok(FileLimits { packets, pixels })
}

/// Parses a decimal number without a sign.
#[tactic(auto, using(crate::proofs::NumberLemmas::no_plus, crate::proofs::NumberLemmas::no_signed_numeral))]
pub(crate) fn decimal(text: &str) -> Option<u32>
    ensures number { IfSome result (IsDecimal text.now) }
    ensures none { result ≡ None → IsNoDecimal (2 ^ 32) text.now }
{
    if text.starts_with('+') {
        return None;
    }
    text.parse::<u32>().ok()
}
