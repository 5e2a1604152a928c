use model::decision::Decision;

// An attribute of a request. Type 1 is string.
#[derive(Clone, Drop)]
pub struct Attribute {
    pub id: u8,
    pub kind: u8,
    pub issuer: Option<Vec<u8>>,
    // Marked for inclusion in results; in a condition, an attribute to compare must be present.
    pub marked: bool,
    pub value: Vec<u8>,
}

#[derive(Drop)]
pub struct Element {
    pub category: u8,
    pub tag: Option<u8>,
    pub attributes: Vec<Attribute>,
}

// Each reference is its list of tags; there is none where the file has none.
#[derive(Drop)]
pub struct Asked {
    pub combined: bool,
    pub elements: Vec<Element>,
    pub references: Vec<Vec<u8>>,
}

// A link leads from one node to another, by number.
#[derive(Clone, Copy, PartialEq)]
pub struct Link {
    pub parent: usize,
    pub child: usize,
}

#[derive(Drop)]
pub struct Graph {
    pub names: Vec<Vec<u8>>,
    pub links: Vec<Link>,
}

#[derive(Drop)]
pub struct Condition {
    pub category: u8,
    pub attribute: Attribute,
}

#[derive(Drop)]
pub struct Rule {
    pub effect: Decision,
    pub conditions: Vec<Condition>,
}

#[derive(Drop)]
pub struct Line {
    pub subject: Vec<u8>,
    pub action: Vec<u8>,
    pub resource: Vec<u8>,
}

#[derive(Drop)]
pub enum Point {
    Rules(Vec<Rule>),
    Grants(Vec<Line>),
}
