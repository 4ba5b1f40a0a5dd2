//! The texts of what is wrong with a file.

use a64_text::FileError;
use std::alloc::AllocError;

#[test]
fn errors_print_their_texts(rt: HostRuntime) -> Result<(), AllocError> {
    let alloc = rt.alloc();
    let bad_line = FileError::BadLine(7);
    assert_eq!(rt;
        format!(in alloc; "{bad_line}")?.as_str(),
        "line 7: not an entry"
    );
    let out_of_memory = FileError::OutOfMemory;
    assert_eq!(rt;
        format!(in alloc; "{out_of_memory}")?.as_str(),
        "out of memory"
    );
    Ok(())
}
