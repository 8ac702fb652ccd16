// The tables that the check is lent, and what it says of an image.
use image::Image;
use image::refusal::Refusal;
use thatchnip::thatchnip_check;
use words::number::within;

// An image that the check accepts, and how many reports it has.
#[derive(Clone, Copy)]
pub struct Checked<'i> {
    pub image: Image<'i>,
    pub count: usize,
}

// The image checked, or the refusal.
pub type Verdict<'i> = Result<Checked<'i>, Refusal>;

// The places of the three tables.
#[derive(Clone, Copy, PartialEq, Eq)]
pub struct Places {
    pub outcomes: u64,
    pub walked: u64,
    pub reports: u64,
}

// The places that `./thatchnip` lends unasked.
const USUAL: Places = Places {
    outcomes: 131072,
    walked: 131072,
    reports: 4096,
};

// The most places that this program has.
const MOST: Places = Places {
    outcomes: 262144,
    walked: 262144,
    reports: 8192,
};

// The number of places to try where some are too few: the usual one, then the most.
fn more(places: u64, usual: u64, most: u64) -> u64 {
    if places < usual { usual } else { most }
}

impl Places {
    // What to try after a refusal because the outcome, walked or report table has no free place.
    pub(crate) fn after(self, refusal: Refusal) -> Option<Places> {
        match refusal {
            Refusal::OutcomesFull => Some(Places {
                outcomes: more(self.outcomes, USUAL.outcomes, MOST.outcomes),
                ..self
            }),
            Refusal::WalkedFull => Some(Places {
                walked: more(self.walked, USUAL.walked, MOST.walked),
                ..self
            }),
            Refusal::ReportsFull => Some(Places {
                reports: more(self.reports, USUAL.reports, MOST.reports),
                ..self
            }),
            _ => None,
        }
    }
}

// The outcome, walked and report table that are lent, and the places that were asked for.
#[derive(Drop)]
pub struct Lent<'a> {
    pub places: Places,
    pub outcomes: &'a mut [u8],
    pub walked: &'a mut [u8],
    pub reports: &'a mut [u8],
}

impl<'a> Lent<'a> {
    // Tables of exactly so many places, as far as these have them.
    pub(crate) fn new(
        places: Places,
        outcomes: &'a mut [u8],
        walked: &'a mut [u8],
        reports: &'a mut [u8],
    ) -> Lent<'a> {
        let o = within(places.outcomes.saturating_mul(8), outcomes);
        let w = within(places.walked.saturating_mul(4), walked);
        let r = within(places.reports.saturating_mul(8), reports);
        Lent {
            places,
            outcomes: &mut outcomes[..o],
            walked: &mut walked[..w],
            reports: &mut reports[..r],
        }
    }

    // Asks the check about the bytes of an image, whose reports then stand in the report table.
    pub(crate) fn check<'i>(&mut self, bytes: &'i [u8]) -> Verdict<'i> {
        let number = thatchnip_check(bytes, self.outcomes, self.walked, self.reports);
        if let Some(refusal) = Refusal::of_number(number / 4294967296) {
            return Err(refusal);
        }
        // the check accepts the bytes only where no refusal is given, so they are an image
        let image = Image::new(bytes)?;
        let count = (number % 4294967296) as usize;
        Ok(Checked { image, count })
    }
}
