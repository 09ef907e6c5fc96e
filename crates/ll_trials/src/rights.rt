//! The rights, with the numbers and names of the kernel's header.

use ll_rights::Right;

const RIGHTS: [(Right, u8, &str); 15] = [
    (Right::EXECUTE, 0, "execute"),
    (Right::WRITE_FILE, 1, "write_file"),
    (Right::READ_FILE, 2, "read_file"),
    (Right::READ_DIR, 3, "read_dir"),
    (Right::REMOVE_DIR, 4, "remove_dir"),
    (Right::REMOVE_FILE, 5, "remove_file"),
    (Right::MAKE_CHAR, 6, "make_char"),
    (Right::MAKE_DIR, 7, "make_dir"),
    (Right::MAKE_REG, 8, "make_reg"),
    (Right::MAKE_SOCK, 9, "make_sock"),
    (Right::MAKE_FIFO, 10, "make_fifo"),
    (Right::MAKE_BLOCK, 11, "make_block"),
    (Right::MAKE_SYM, 12, "make_sym"),
    (Right::REFER, 13, "refer"),
    (Right::TRUNCATE, 14, "truncate"),
];

#[test]
fn rights_have_the_headers_bits(rt: HostRuntime) {
    let rights = RIGHTS;
    for (right, bit, name) in &rights {
        assert!(rt; right.number() == *bit && right.text() == *name, "{name}");
    }
}
