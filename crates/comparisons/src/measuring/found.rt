//! What is found by many questions.
use tb_base::{Choice, Offer, Sec, Value};

/// How many choices or slots were found, and the sum of their arrivals, each by its distance from
/// the beginning of the day.
#[derive(Clone, Copy)]
pub struct Found {
    pub choices: u64,
    pub arrivals: u64,
}

impl Found {
    /// Where nothing was found.
    pub const NOTHING: Found = Found {
        choices: 0,
        arrivals: 0,
    };

    /// One more, with this number.
    pub fn add_number(&mut self, number: u32) {
        self.choices = self.choices.wrapping_add(1);
        self.arrivals = self.arrivals.wrapping_add(number as u64);
    }

    /// One more, with this time.
    pub fn add_time(&mut self, time: Sec) {
        self.add_number(time.unsigned_abs());
    }

    /// What else was found.
    pub fn add(&mut self, other: Found) {
        self.choices = self.choices.wrapping_add(other.choices);
        self.arrivals = self.arrivals.wrapping_add(other.arrivals);
    }

    /// The arrivals of values.
    pub fn add_values(&mut self, values: &[Value]) {
        for value in values {
            self.add_time(value.arrive);
        }
    }

    /// Choices, and the sum of their arrivals.
    pub fn of_choices(choices: &[Choice]) -> Found {
        let mut found = Found::NOTHING;
        for choice in choices {
            found.add_time(choice.value.arrive);
        }
        found
    }

    /// Offers, and the sum of their arrivals.
    pub fn of_offers(offers: &[Offer]) -> Found {
        let mut found = Found::NOTHING;
        for offer in offers {
            found.add_time(offer.slot.arrive);
        }
        found
    }
}
