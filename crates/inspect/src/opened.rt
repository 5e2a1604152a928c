use grants::grants::Grants;
use model::refusal::Refusal;
use report::console::Role;
use report::print::of_request::print_request;
use report::print::of_tree::print_tree;
use report::print::point::{print_grants, print_policy};
use request::request::Request;
use rule_policy::policy::RulePolicy;
use std::alloc::{AllocError, Global};
use std::io;
use tree_files::linked::LinkedTree;
use tree_files::paths::PathTree;

// What a kind of file is opened as.
pub trait Opened<'a>: Sized + Drop {
    const ROLE: Role;

    // A place for what a file of this kind holds.
    fn empty(heap: Global) -> Result<Self, AllocError>;

    fn take(&mut self, bytes: &'a [u8]) -> Result<(), Refusal>;

    fn print(&self, rt: &HostRuntime) -> io::Result<()>;
}

impl<'a> Opened<'a> for Request<'a> {
    const ROLE: Role = Role::Request;

    fn empty(heap: Global) -> Result<Request<'a>, AllocError> {
        Request::new(heap)
    }

    fn take(&mut self, bytes: &'a [u8]) -> Result<(), Refusal> {
        Ok(self.open(bytes)?)
    }

    fn print(&self, rt: &HostRuntime) -> io::Result<()> {
        print_request(rt, self)
    }
}

impl<'a> Opened<'a> for LinkedTree<'a> {
    const ROLE: Role = Role::Tree;

    fn empty(heap: Global) -> Result<LinkedTree<'a>, AllocError> {
        LinkedTree::new(heap)
    }

    fn take(&mut self, bytes: &'a [u8]) -> Result<(), Refusal> {
        Ok(self.open(bytes)?)
    }

    fn print(&self, rt: &HostRuntime) -> io::Result<()> {
        print_tree(rt, self)
    }
}

impl<'a> Opened<'a> for PathTree<'a> {
    const ROLE: Role = Role::Tree;

    fn empty(heap: Global) -> Result<PathTree<'a>, AllocError> {
        PathTree::new(heap)
    }

    fn take(&mut self, bytes: &'a [u8]) -> Result<(), Refusal> {
        Ok(self.open(bytes)?)
    }

    fn print(&self, rt: &HostRuntime) -> io::Result<()> {
        print_tree(rt, self)
    }
}

impl<'a> Opened<'a> for RulePolicy<'a> {
    const ROLE: Role = Role::Point;

    fn empty(heap: Global) -> Result<RulePolicy<'a>, AllocError> {
        RulePolicy::new(heap)
    }

    fn take(&mut self, bytes: &'a [u8]) -> Result<(), Refusal> {
        Ok(self.open(bytes)?)
    }

    fn print(&self, rt: &HostRuntime) -> io::Result<()> {
        print_policy(rt, self)
    }
}

impl<'a> Opened<'a> for Grants<'a> {
    const ROLE: Role = Role::Point;

    fn empty(heap: Global) -> Result<Grants<'a>, AllocError> {
        Grants::new(heap)
    }

    fn take(&mut self, bytes: &'a [u8]) -> Result<(), Refusal> {
        Ok(self.open(bytes)?)
    }

    fn print(&self, rt: &HostRuntime) -> io::Result<()> {
        print_grants(rt, self)
    }
}
