// What an hour is opened with: the participants asked for, and the storage that the caller lends.
ghost use Rattle.std.specs.Prelude.{◌≡◌};
ghost use Rattle.postings.specs.Openings.{is_void, participant_count, record_capacity, bilateral_capacity};

// An hour holds at most this many records and bilaterals, however long the lists lent to it are.
const MOST_RECORDS: usize = 1024;

const MOST_BILATERALS: usize = 256;

// An hour has 1 to 64 participants.
const MOST_PARTICIPANTS: i64 = 64;

#[derive(Clone, Copy, PartialEq, Eq, Debug)]
pub struct Opening {
    // the number of participants asked for, in range or not
    pub participants: i64,
    // rows of the account table
    pub rows: usize,
    // places in the record list and in the bilateral list
    pub record_places: usize,
    pub bilateral_places: usize,
}

impl Opening {
    // Whether the hour is void: fewer than 1 or more than 64 participants, or fewer rows than participants.
    pub fn is_void(&self) -> bool
        ensures { result ≡ is_void self.now }
    {
        self.participants < 1
            || self.participants > MOST_PARTICIPANTS
            || self.rows < self.participants as usize
    }

    // The hour's participants; a void hour has none.
    pub fn participant_count(&self) -> usize
        ensures { result ≡ participant_count self.now }
    {
        if self.is_void() {
            0
        } else {
            self.participants as usize
        }
    }

    // How many records the hour can hold. One function for both lists would be no plainer: it would be `min` itself.
    pub fn record_capacity(&self) -> usize
        ensures { result ≡ record_capacity self.now }
    {
        self.record_places.min(MOST_RECORDS)
    }

    // How many bilaterals the hour can hold.
    pub fn bilateral_capacity(&self) -> usize
        ensures { result ≡ bilateral_capacity self.now }
    {
        self.bilateral_places.min(MOST_BILATERALS)
    }
}
