//! The ranges of the columns of a sample.

ghost use Rattle.std.specs.Prelude.{◌≡◌, ◌<◌};
ghost use Rattle.flight_samples.specs.SampleText.{column_count, range_at};

/// How many columns a sample has.
pub(crate) const COLUMN_COUNT: usize = 26;

/// The least and the greatest value of a column.
#[derive(Clone, Copy)]
pub(crate) struct Limits {
    pub low: i32,
    pub high: i32,
}

const LATITUDES: Limits = Limits {
    low: -524_288,
    high: 524_288,
};

const LONGITUDES: Limits = Limits {
    low: -1_048_576,
    high: 1_048_575,
};

const ALTITUDES: Limits = Limits {
    low: -32_768,
    high: 32_767,
};

const TIMES_PAST_HOUR: Limits = Limits {
    low: 0,
    high: 28_799,
};

const FLAGS: Limits = Limits { low: 0, high: 1 };

const ACCURACIES: Limits = Limits { low: 0, high: 7 };

const TIMES_TO_GO: Limits = Limits {
    low: 0,
    high: 16_383,
};

const ANGLES: Limits = Limits { low: 0, high: 4095 };

const SPEEDS: Limits = Limits { low: 0, high: 8191 };

const VERTICAL_RATES: Limits = Limits {
    low: -2048,
    high: 2047,
};

const WIND_SPEEDS: Limits = Limits { low: 0, high: 511 };

const WIND_DIRECTIONS: Limits = Limits { low: 0, high: 511 };

const TEMPERATURES: Limits = Limits {
    low: -2048,
    high: 2047,
};

const CROSS_TRACKS: Limits = Limits {
    low: -32_767,
    high: 32_767,
};

/// The limits of the columns, in their order.
static LIMITS: [Limits; COLUMN_COUNT] = [
    LATITUDES,
    LONGITUDES,
    ALTITUDES,
    TIMES_PAST_HOUR,
    FLAGS,
    ACCURACIES,
    FLAGS,
    LATITUDES,
    LONGITUDES,
    ALTITUDES,
    TIMES_TO_GO,
    LATITUDES,
    LONGITUDES,
    ALTITUDES,
    FLAGS,
    ANGLES,
    SPEEDS,
    VERTICAL_RATES,
    FLAGS,
    ANGLES,
    SPEEDS,
    WIND_SPEEDS,
    FLAGS,
    WIND_DIRECTIONS,
    TEMPERATURES,
    CROSS_TRACKS,
];

/// The limits of the column at a place, counted from 0.
pub(crate) fn limits_at(place: usize) -> Limits
    requires { place < column_count }
    ensures low { result.low ≡ (range_at place).low }
    ensures high { result.high ≡ (range_at place).high }
{
    LIMITS[place]
}
