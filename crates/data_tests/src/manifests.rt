use mz_base::{Limit, NoMemory};
use scenario::*;
use std::alloc::Global;
use std::test::Fail;

/// A manifest of two lines, which lacks nothing.
const LEAST: &str = "DATASET\tt\nFILE\tt\tromaji\tk.tsv\n";

/// Why the bytes are no manifest.
fn refusal(alloc: Global, bytes: &[u8]) -> Option<ManifestError> {
    read_manifest(alloc, bytes).err()
}

/// The text before, then so many of the part, and the text after. A `?` of the part stands for its number, from 1.
fn many(
    alloc: Global,
    before: &str,
    part: &str,
    count: usize,
    after: &str,
) -> Result<String, NoMemory> {
    let mut text = String::new(alloc);
    text.push_str(before)?;
    for index in 0..count {
        let number = format!(in alloc; "{}", index + 1)?;
        for letter in part.chars() {
            match letter {
                '?' => text.push_str(number.as_str())?,
                _ => text.push(letter)?,
            }
        }
    }
    text.push_str(after)?;
    Ok(text)
}

/// The manifest as text: each kind of line, and then the loaders and the certificates.
fn shown(alloc: Global, manifest: &Manifest) -> Result<String, NoMemory> {
    let mut text = String::new(alloc);
    for set in manifest.sets.as_slice() {
        text.push_str(format!(in alloc; "set {set}\n")?.as_str())?;
    }
    for file in manifest.files.as_slice() {
        let path = &file.path;
        text.push_str(format!(in alloc; "file {} {:?} {path}\n", file.set, file.role)?.as_str())?;
    }
    for user in manifest.users.as_slice() {
        text.push_str(format!(in alloc; "user {user}\n")?.as_str())?;
    }
    for dict in manifest.dicts.as_slice() {
        text.push_str(format!(in alloc; "dict {} {}\n", dict.user, dict.path)?.as_str())?;
    }
    for client in manifest.clients.as_slice() {
        let name = &client.name;
        text.push_str(format!(in alloc;
            "client {name} {} {}\n",
            client.user, client.script
        )?.as_str())?;
    }
    let told = format!(in alloc; "{} {}\n", manifest.loaders, manifest.certificates)?;
    text.push_str(told.as_str())?;
    Ok(text)
}

#[test]
fn reads_each_kind_of_line(rt: HostRuntime) -> Result<(), Fail> {
    let cases = [
        (LEAST, "set t\nfile 1 Romaji k.tsv\n1 false\n"),
        (
            "\u{FEFF}# all\r\nDATASET\tone\r\n\r\nUSER\t花\r\nDATASET\ttwo\r\nUSER\tone\r\n\
             FILE\ttwo\tdictionary\td1\r\nFILE\tone\tconnection\tc\r\nFILE\ttwo\tdictionary\td1\r\n\
             FILE\tone\tid\ti\r\nFILE\tone\tunk\tu\r\nFILE\tone\tsegment\ts\r\n\
             FILE\tone\tuser_pos\tp\r\nFILE\ttwo\tromaji\tr\r\nFILE\tone\tsymbol\ty\r\n\
             FILE\tone\tkanji\tかん 字\r\nFILE\tone\tromaji\tr\r\n\
             USERDICT\tone\td\r\nUSERDICT\t花\te\r\nUSERDICT\tone\tf\r\n\
             CLIENT\tone\tone\ts1\r\n#\r\nCLIENT\ttwo\t花\ts1\r\nCERTIFICATES\ton\r\nLOADERS\t4",
            "set one\nset two\n\
             file 2 Dictionary d1\nfile 1 Connection c\nfile 2 Dictionary d1\n\
             file 1 Id i\nfile 1 Unk u\nfile 1 Segment s\n\
             file 1 UserPos p\nfile 2 Romaji r\nfile 1 Symbol y\n\
             file 1 Kanji かん 字\nfile 1 Romaji r\n\
             user 花\nuser one\n\
             dict 2 d\ndict 1 e\ndict 2 f\n\
             client one 2 s1\nclient two 1 s1\n4 true\n",
        ),
    ];
    for (text, wanted) in cases {
        let alloc = rt.alloc();
        let manifest = read_manifest(alloc, text.as_bytes())?;
        assert_eq!(rt; shown(alloc, &manifest)?.as_str(), wanted);
    }
    Ok(())
}

/// Each line stands third, after the two lines of a manifest with a set `t` and its romaji file.
#[test]
fn a_bad_line_is_named(rt: HostRuntime) -> Result<(), NoMemory> {
    let lines = [
        // The first field is no word of the table.
        "SET\tx",
        "dataset\tx",
        "DATASET x",
        "\tx",
        " # x",
        // The number of fields differs.
        "DATASET",
        "DATASET\tx\t",
        "FILE\tt\tid",
        "FILE\tt\tid\ti\t",
        "USER",
        "USER\tx\t",
        "USERDICT\tt",
        "USERDICT\tt\td\t",
        "CLIENT\tx\tt",
        "CLIENT\tx\tt\ts\t",
        "LOADERS",
        "LOADERS\t1\t",
        "CERTIFICATES",
        "CERTIFICATES\ton\t",
        // A name is empty, repeated or unknown.
        "DATASET\t",
        "DATASET\tt",
        "USER\t",
        "FILE\t\tid\ti",
        "FILE\tT\tid\ti",
        "USERDICT\tt\td",
        "CLIENT\tx\tt\ts",
        // A path is empty.
        "FILE\tt\tid\t",
        // No number from 1 to 4.
        "LOADERS\t0",
        "LOADERS\t5",
        "LOADERS\t",
        "LOADERS\tx",
        "LOADERS\t+1",
        "LOADERS\t00000000001",
        "LOADERS\t4294967297",
        // Another word than `on`.
        "CERTIFICATES\t",
        "CERTIFICATES\toff",
        "CERTIFICATES\tON",
        // A role is unknown, or stands a second time.
        "FILE\tt\t\ti",
        "FILE\tt\tId\ti",
        "FILE\tt\tuser-pos\ti",
        "FILE\tt\tromaji\tk.tsv",
    ];
    for line in lines {
        let alloc = rt.alloc();
        let text = many(alloc, LEAST, line, 1, "\nLOADERS\tx\n")?;
        assert_eq!(rt;
            refusal(alloc, text.as_bytes()),
            Some(ManifestError::Bad(3)),
            "at {line}"
        );
    }
    Ok(())
}

#[test]
fn a_line_can_be_bad_after_others(rt: HostRuntime) {
    let cases: [(&[u8], u64); 18] = [
        (b"DATASET\tbase\nFILE\tx\tromaji\tk.tsv\n", 2),
        (b"FILE\tt\tromaji\tk\nDATASET\tt\n", 1),
        // No text, also where it would be skipped.
        (b"DATASET\t\xFF\n", 1),
        (b"DATASET\tt\n#\xFF\nFILE\tt\tromaji\tk\n", 2),
        // Names of one kind are distinct.
        (b"DATASET\tt\nDATASET\tu\nDATASET\tt\n", 3),
        (b"USER\tu\n\nUSER\tu\n", 3),
        (b"USER\tu\nCLIENT\tc\tu\ts\nCLIENT\tc\tu\tx\n", 3),
        (b"USER\tu\nCLIENT\t\tu\ts\n", 2),
        (b"USER\tu\nCLIENT\tc\tu\t\n", 2),
        (b"USER\tu\nUSERDICT\tu\t\n", 2),
        // A second line.
        (b"LOADERS\t1\nLOADERS\t1\n", 2),
        (b"CERTIFICATES\ton\nCERTIFICATES\ton\n", 2),
        (
            b"DATASET\tt\nFILE\tt\tid\ti\nFILE\tt\tdictionary\td\nFILE\tt\tid\tj\n",
            4,
        ),
        // A set or a romaji file is missing.
        (b"", 1),
        (b"# nothing\n\nUSER\tu\n", 4),
        (b"DATASET\tt\nUSER\tu", 3),
        (b"DATASET\tt\nDATASET\tu\nFILE\tu\tromaji\tk\n", 4),
        (b"DATASET\tt\nFILE\tt\tdictionary\td\n", 3),
    ];
    for (bytes, line) in cases {
        assert_eq!(rt;
            refusal(rt.alloc(), bytes),
            Some(ManifestError::Bad(line)),
            "at {line}"
        );
    }
}

/// Each third line is long by a part that stands so many times.
#[test]
fn names_paths_and_numbers_have_a_length(rt: HostRuntime) -> Result<(), NoMemory> {
    let cases = [
        ("USER\t", "n", 64, "\n", true),
        ("USER\t", "n", 65, "\n", false),
        // The length counts bytes.
        ("USER\t", "名", 21, "n\n", true),
        ("USER\t", "名", 21, "nn\n", false),
        ("FILE\tt\tid\t", "p", 1_024, "\n", true),
        ("FILE\tt\tid\t", "p", 1_025, "\n", false),
        ("FILE\tt\tid\t", "路", 341, "p\n", true),
        ("FILE\tt\tid\t", "路", 341, "pp\n", false),
        ("LOADERS\t", "0", 9, "1\n", true),
        ("LOADERS\t", "0", 9, "4\n", true),
        ("LOADERS\t", "0", 10, "1\n", false),
        ("DATASET\t", "n", 65, "\n", false),
        ("USER\tu\nUSERDICT\tu\t", "p", 1_024, "\n", true),
    ];
    for (index, (front, part, count, rest, good)) in cases.into_iter().enumerate() {
        let alloc = rt.alloc();
        let line = many(alloc, front, part, count, rest)?;
        let text = many(alloc, LEAST, line.as_str(), 1, "")?;
        let wanted = if good {
            None
        } else {
            Some(ManifestError::Bad(3))
        };
        assert_eq!(rt; refusal(alloc, text.as_bytes()), wanted, "case {index}");
    }
    Ok(())
}

#[test]
fn so_many_lines_are_too_large(rt: HostRuntime) -> Result<(), NoMemory> {
    let set = "DATASET\ts?\nFILE\ts?\tromaji\tk\n";
    let client = "CLIENT\tc?\tu\ts\n";
    let owned = "DATASET\tt\nFILE\tt\tromaji\tk\nUSER\tu\n";
    let cases = [
        ("", set, 8, "", None),
        (
            "",
            set,
            9,
            "",
            Some(ManifestError::TooLarge(Limit::Sets, 17)),
        ),
        (LEAST, "USER\tu?\n", 16, "", None),
        (
            LEAST,
            "USER\tu?\n",
            17,
            "",
            Some(ManifestError::TooLarge(Limit::Users, 19)),
        ),
        (owned, client, 16, "", None),
        (
            owned,
            client,
            17,
            "",
            Some(ManifestError::TooLarge(Limit::Clients, 20)),
        ),
        (owned, "USERDICT\tu\td\n", 16, "", None),
        (
            owned,
            "USERDICT\tu\td\n",
            17,
            "",
            Some(ManifestError::TooLarge(Limit::Dictionaries, 20)),
        ),
        // Each user has so many dictionaries.
        (
            owned,
            "USERDICT\tu\td\n",
            16,
            "USER\tv\nUSERDICT\tv\td\n",
            None,
        ),
        // A set has many dictionaries.
        (LEAST, "FILE\tt\tdictionary\td?\n", 40, "", None),
        // A line is bad before it is too large.
        ("", set, 8, "DATASET\ts1\n", Some(ManifestError::Bad(17))),
        ("", set, 8, "DATASET\t\n", Some(ManifestError::Bad(17))),
        (
            LEAST,
            "USER\tu?\n",
            16,
            "USER\tu16\n",
            Some(ManifestError::Bad(19)),
        ),
        (
            owned,
            client,
            16,
            "CLIENT\tx\ty\ts\n",
            Some(ManifestError::Bad(20)),
        ),
        (
            owned,
            "USERDICT\tu\td\n",
            16,
            "USERDICT\tu\t\n",
            Some(ManifestError::Bad(20)),
        ),
        // The first line at fault counts, and a missing file comes after the last.
        (
            "",
            set,
            9,
            "?\n",
            Some(ManifestError::TooLarge(Limit::Sets, 17)),
        ),
        ("?\n", set, 9, "", Some(ManifestError::Bad(1))),
        (
            "",
            "DATASET\ts?\n",
            9,
            "",
            Some(ManifestError::TooLarge(Limit::Sets, 9)),
        ),
        ("", "DATASET\ts?\n", 8, "", Some(ManifestError::Bad(9))),
    ];
    for (index, (before, part, count, after, wanted)) in cases.into_iter().enumerate() {
        let alloc = rt.alloc();
        let text = many(alloc, before, part, count, after)?;
        assert_eq!(rt; refusal(alloc, text.as_bytes()), wanted, "case {index}");
    }
    Ok(())
}
