// How full a store is, in thousandths, "by shifting and subtracting, one bit of the factor 1,000 after
// another, with no number wider than 32 bits". The product, which can need 42 bits, is never made: of
// each number of trays only the whole bounds are counted, and what is left over.
ghost use Rattle.std.specs.Prelude.{◌≡◌, ◌+◌, ◌*◌, ◌/◌, ◌<◌};
ghost use Rattle.rules.specs.Question.{fullness_of};
ghost use Rattle.measure.specs.Divided.{amount};

// A whole in thousandths: the factor, and what a full store reads.
const WHOLE: u32 = 1000;

// How many bits the factor has.
const BITS: u32 = 10;

// A number of trays, divided by the bound. The remainder is kept below the bound.
#[derive(Clone, Copy)]
struct Divided {
    quotient: u32,
    remainder: u32,
}

// Twice as many trays. Twice the remainder can need 33 bits, so that the remainder is compared with what
// there is from it to the bound, and shifted only where it is less.
fn doubled(trays: Divided, bound: u32) -> Divided
    requires { (trays.remainder < bound) × (trays.quotient < 1000) }
    ensures { (amount bound result ≡ 2 * amount bound trays) × (result.remainder < bound) }
{
    let to_bound = bound - trays.remainder;
    if trays.remainder < to_bound {
        Divided {
            quotient: trays.quotient << 1,
            remainder: trays.remainder << 1,
        }
    } else {
        Divided {
            quotient: (trays.quotient << 1) + 1,
            remainder: trays.remainder - to_bound,
        }
    }
}

// The booked trays more.
fn added(trays: Divided, booked: u32, bound: u32) -> Divided
    requires { (trays.remainder < bound) × (trays.quotient < 1000) × (booked < bound) }
    ensures { (amount bound result ≡ amount bound trays + booked) × (result.remainder < bound) }
{
    let to_bound = bound - trays.remainder;
    if booked < to_bound {
        Divided {
            quotient: trays.quotient,
            remainder: trays.remainder + booked,
        }
    } else {
        Divided {
            quotient: trays.quotient + 1,
            remainder: booked - to_bound,
        }
    }
}

// "1,000 times b divided by M, rounded down", from the highest bit of 1,000 to the lowest.
fn thousandths(booked: u32, bound: u32) -> u32
    requires { booked < bound }
    ensures { result ≡ 1000 * booked / bound }
{
    let mut trays = Divided {
        quotient: 0,
        remainder: 0,
    };
    for left in (0..BITS).rev() {
        trays = doubled(trays, bound);
        if (WHOLE >> left) & 1 == 1 {
            trays = added(trays, booked, bound);
        }
    }
    trays.quotient
}

// "0 if M is 0; 1,000 if b is at least M; else 1,000 times b divided by M, rounded down (the
// product can need 42 bits)"
#[tactic(auto, unfolding(rules::specs::Question::fullness_of))]
pub fn fullness(booked: u32, bound: u32) -> u32
    ensures { result ≡ fullness_of booked bound }
{
    if bound == 0 {
        return 0;
    }
    if bound <= booked {
        return WHOLE;
    }
    thousandths(booked, bound)
}
