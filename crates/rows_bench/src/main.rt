#![tactic(auto)]

mod count;

use count::count;
use std::{env, fs};

// Counts the rows of a request over a linked tree and grants: the work that bench/ measures.
fn main(rt: HostRuntime) -> anyhow::Result<()> {
    let mut words = env::args(&rt)?;
    let _program = words.next();
    let (Some(request), Some(tree), Some(grants)) = (words.next(), words.next(), words.next())
    else {
        println!(rt; "rows_bench REQUEST TREE GRANTS: files of bytes")?;
        return Ok(());
    };
    let request = fs::read(&rt, &request)?;
    let tree = fs::read(&rt, &tree)?;
    let grants = fs::read(&rt, &grants)?;
    match count(
        rt.alloc(),
        request.as_slice(),
        tree.as_slice(),
        grants.as_slice(),
    )? {
        Some(counted) => {
            println!(rt; "rows {}", counted.rows)?;
            println!(rt; "permits {}", counted.permits)?;
            println!(rt; "checksum {}", counted.checksum)?;
        }
        None => println!(rt; "a file is refused")?,
    }
    Ok(())
}
