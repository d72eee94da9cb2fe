//! What is kept in a file.

use crate::transcript::carry_out;
use sqlite::Connection;
use std::fs;
use std::test::Fail;

// Each transcript runs in the file as the one before it left it.
const KEPT: &str = "\
# A user, a revision, a baseline and a hold are written.
> found
Ok(())
> put_user blue - ann 2 7
Ok(())
> add_revision blue web ann
Ok(1)
> put_baseline blue web - 1
Ok(())
> put_hold blue web
Ok(())
> check_office
Ok(2097152)
> user_by_name - - ann
ann blue 2 7
> revision blue web - 1
1 ann open {} 7
> baseline blue
baseline web 1
> held blue web
Ok(true)

# They are in the office, each column as it was written.
> check_office
Ok(2097152)
> user_by_name - - ann
ann blue 2 7
> revision blue web - 1
1 ann open {} 7
> baseline blue
baseline web 1
> held blue web
Ok(true)
";

#[test]
fn what_was_written_is_in_the_file_after_it_was_closed(rt: HostRuntime) -> Result<(), Fail> {
    let folder = "office_store_test";
    let path = "office_store_test/office.db";
    let _ = fs::remove_dir_all(&rt, folder);
    fs::create_dir(&rt, folder)?;
    for transcript in KEPT.split("\n\n") {
        let conn = Connection::open(&rt, path)?;
        carry_out(&rt, rt.alloc(), conn, transcript)?.close()?;
    }
    fs::remove_dir_all(&rt, folder)?;
    Ok(())
}
