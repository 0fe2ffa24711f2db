/// One thing for each member of a cluster that has one, by the members' numbers.
#[derive(Drop)]
pub struct Peers<T> {
    pub one: Option<T>,
    pub two: Option<T>,
    pub three: Option<T>,
    pub four: Option<T>,
    pub five: Option<T>,
    pub six: Option<T>,
    pub seven: Option<T>,
}
