//! The flight data of one moment.

ghost use Rattle.std.specs.Prelude.{◌≡◌, pos, replicate};
ghost use Rattle.flight_samples.specs.Columns.{IsIn, accuracies, altitudes, angles, cross_tracks, flags, latitudes, longitudes, speeds, temperatures, times_past_hour, times_to_go, vertical_rates, wind_directions, wind_speeds};

/// A sample: what the avionics know at one moment, as the aircraft reports it in the groups of ADS-C.
///
/// The fields stand in the order of the columns of a sample line. Each is within its column's range, always. The quantities
/// are those that the report groups of RTCA DO-258A / EUROCAE ED-100A and ARINC 745 tell; which columns there are, their
/// order, their units and their ranges are this project's profile. The latitude goes up to the north pole, 524288, and the longitude stops one step short of 180 degrees
/// east, which is the same meridian as 180 degrees west.
#[derive(Clone, Copy, Debug, PartialEq, Eq)]
pub struct Sample {
    /// Latitude of the present position, in 180/2^20 degree, north positive: -524288 to 524288.
    pub lat: i32,
    /// Longitude of the present position, in 180/2^20 degree, east positive: -1048576 to 1048575.
    pub lon: i32,
    /// Altitude of the present position, in 4 feet: -32768 to 32767.
    pub alt: i32,
    /// Time of the position, in 1/8 second past the hour: 0 to 28799.
    pub sec: i32,
    /// TCAS health, the bit of the basic group: 0 or 1.
    pub tcas: i32,
    /// Accuracy of the position, the code of the figure of merit: 0 to 7.
    pub acc: i32,
    /// Redundancy of the navigation, the bit of the figure of merit: 0 or 1.
    pub red: i32,
    /// Latitude of the active waypoint, in 180/2^20 degree: -524288 to 524288.
    pub wlat: i32,
    /// Longitude of the active waypoint, in 180/2^20 degree: -1048576 to 1048575.
    pub wlon: i32,
    /// Altitude predicted at the active waypoint, in 4 feet: -32768 to 32767.
    pub walt: i32,
    /// Time to go to the active waypoint, in seconds: 0 to 16383.
    pub eta: i32,
    /// Latitude of the next waypoint, in 180/2^20 degree: -524288 to 524288.
    pub nlat: i32,
    /// Longitude of the next waypoint, in 180/2^20 degree: -1048576 to 1048575.
    pub nlon: i32,
    /// Altitude predicted at the next waypoint, in 4 feet: -32768 to 32767.
    pub nalt: i32,
    /// Whether the true track is invalid: 0 or 1.
    pub tinv: i32,
    /// True track, in 360/4096 degree: 0 to 4095.
    pub track: i32,
    /// Ground speed, in 1/2 knot: 0 to 8191.
    pub gs: i32,
    /// Vertical rate, in 16 feet a minute, up positive: -2048 to 2047.
    pub vr: i32,
    /// Whether the true heading is invalid: 0 or 1.
    pub hinv: i32,
    /// True heading, in 360/4096 degree: 0 to 4095.
    pub heading: i32,
    /// Speed through the air, in Mach 0.0005: 0 to 8191.
    pub mach: i32,
    /// Wind speed, in 1/2 knot: 0 to 511.
    pub wind: i32,
    /// Whether the wind direction is invalid: 0 or 1.
    pub winv: i32,
    /// Direction from which the wind blows, in 360/512 degree: 0 to 511.
    pub wdir: i32,
    /// Outside temperature, in 0.25 degree Celsius: -2048 to 2047.
    pub temp: i32,
    /// Distance from the planned track, in 0.125 nautical mile, its sign telling the side: -32767 to 32767.
    pub xtk: i32,
    ghost lat_range: { IsIn latitudes lat },
    ghost lon_range: { IsIn longitudes lon },
    ghost alt_range: { IsIn altitudes alt },
    ghost sec_range: { IsIn times_past_hour sec },
    ghost tcas_range: { IsIn flags tcas },
    ghost acc_range: { IsIn accuracies acc },
    ghost red_range: { IsIn flags red },
    ghost wlat_range: { IsIn latitudes wlat },
    ghost wlon_range: { IsIn longitudes wlon },
    ghost walt_range: { IsIn altitudes walt },
    ghost eta_range: { IsIn times_to_go eta },
    ghost nlat_range: { IsIn latitudes nlat },
    ghost nlon_range: { IsIn longitudes nlon },
    ghost nalt_range: { IsIn altitudes nalt },
    ghost tinv_range: { IsIn flags tinv },
    ghost track_range: { IsIn angles track },
    ghost gs_range: { IsIn speeds gs },
    ghost vr_range: { IsIn vertical_rates vr },
    ghost hinv_range: { IsIn flags hinv },
    ghost heading_range: { IsIn angles heading },
    ghost mach_range: { IsIn speeds mach },
    ghost wind_range: { IsIn wind_speeds wind },
    ghost winv_range: { IsIn flags winv },
    ghost wdir_range: { IsIn wind_directions wdir },
    ghost temp_range: { IsIn temperatures temp },
    ghost xtk_range: { IsIn cross_tracks xtk },
}

impl Sample {
    ghost use Rattle.flight_samples.specs.Samples.{values_of};

    /// The sample whose fields are all 0.
    pub fn zero() -> Sample
        ensures { values_of result ≡ replicate 26 (pos 0) }
    {
        Sample {
            lat: 0,
            lon: 0,
            alt: 0,
            sec: 0,
            tcas: 0,
            acc: 0,
            red: 0,
            wlat: 0,
            wlon: 0,
            walt: 0,
            eta: 0,
            nlat: 0,
            nlon: 0,
            nalt: 0,
            tinv: 0,
            track: 0,
            gs: 0,
            vr: 0,
            hinv: 0,
            heading: 0,
            mach: 0,
            wind: 0,
            winv: 0,
            wdir: 0,
            temp: 0,
            xtk: 0,
        }
    }
}
