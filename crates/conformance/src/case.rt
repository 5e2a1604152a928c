use expander::expand::{PointFile, TreeFile};

// The files of one enquiry.
#[derive(Debug, PartialEq, Drop)]
pub struct Case {
    pub request: Vec<u8>,
    pub tree: TreeFile<Vec<u8>>,
    pub point: PointFile<Vec<u8>>,
}
