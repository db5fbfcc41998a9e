//! What a search of material asks.
ghost use Rattle.std.specs.Prelude.{◌≡◌};
ghost use Rattle.sig_index.specs.Queries.{any_material};

/// The least and the greatest count of each of the ten kinds of men, both allowed, in the order white queens, rooks,
/// bishops, knights and pawns, then those of Black.
#[derive(Clone, Copy, Debug, PartialEq, Eq, Hash)]
pub struct MatRange {
    pub lo: [u8; 10],
    pub hi: [u8; 10],
}

/// What a search of material asks: that at a ply from `ply_lo` to `ply_hi`, and at each of the `streak - 1` plies after
/// it, the counts of men are in `range`, or with `swap` in the range with the colours exchanged.
#[derive(Clone, Copy, Debug, PartialEq, Eq, Hash)]
pub struct MatQuery {
    pub range: MatRange,
    pub ply_lo: u32,
    pub ply_hi: u32,
    pub streak: u32,
    pub swap: bool,
}

impl MatQuery {
    /// The query that asks nothing: any counts, at a ply up to 131,071.
    pub fn any() -> MatQuery
        ensures nothing { result ≡ any_material }
    {
        MatQuery {
            range: MatRange {
                lo: [0; 10],
                hi: [16; 10],
            },
            ply_lo: 0,
            ply_hi: 131_071,
            streak: 1,
            swap: false,
        }
    }
}
