//! Names of error numbers.

ghost use Rattle.std.specs.Prelude.{◌≡◌, map, option_map};
ghost use Rattle.tc_capture.specs.Errno.{errno_name, name_in, row_of};
ghost use Rattle.tc_capture.specs.Errno.{first_errnos, middle_errnos, last_errnos};

// An error number and its name.
#[derive(Clone, Copy)]
struct Errno {
    number: u32,
    name: &'static str,
}

// `asm-generic/errno-base.h`.
#[rattlefmt::skip]
static FIRST: [Errno; 34] = [
    Errno { number: 1, name: "EPERM" },
    Errno { number: 2, name: "ENOENT" },
    Errno { number: 3, name: "ESRCH" },
    Errno { number: 4, name: "EINTR" },
    Errno { number: 5, name: "EIO" },
    Errno { number: 6, name: "ENXIO" },
    Errno { number: 7, name: "E2BIG" },
    Errno { number: 8, name: "ENOEXEC" },
    Errno { number: 9, name: "EBADF" },
    Errno { number: 10, name: "ECHILD" },
    Errno { number: 11, name: "EAGAIN" },
    Errno { number: 12, name: "ENOMEM" },
    Errno { number: 13, name: "EACCES" },
    Errno { number: 14, name: "EFAULT" },
    Errno { number: 15, name: "ENOTBLK" },
    Errno { number: 16, name: "EBUSY" },
    Errno { number: 17, name: "EEXIST" },
    Errno { number: 18, name: "EXDEV" },
    Errno { number: 19, name: "ENODEV" },
    Errno { number: 20, name: "ENOTDIR" },
    Errno { number: 21, name: "EISDIR" },
    Errno { number: 22, name: "EINVAL" },
    Errno { number: 23, name: "ENFILE" },
    Errno { number: 24, name: "EMFILE" },
    Errno { number: 25, name: "ENOTTY" },
    Errno { number: 26, name: "ETXTBSY" },
    Errno { number: 27, name: "EFBIG" },
    Errno { number: 28, name: "ENOSPC" },
    Errno { number: 29, name: "ESPIPE" },
    Errno { number: 30, name: "EROFS" },
    Errno { number: 31, name: "EMLINK" },
    Errno { number: 32, name: "EPIPE" },
    Errno { number: 33, name: "EDOM" },
    Errno { number: 34, name: "ERANGE" },
];

// `asm-generic/errno.h`, up to 83.
#[rattlefmt::skip]
static MIDDLE: [Errno; 47] = [
    Errno { number: 35, name: "EDEADLK" },
    Errno { number: 36, name: "ENAMETOOLONG" },
    Errno { number: 37, name: "ENOLCK" },
    Errno { number: 38, name: "ENOSYS" },
    Errno { number: 39, name: "ENOTEMPTY" },
    Errno { number: 40, name: "ELOOP" },
    Errno { number: 42, name: "ENOMSG" },
    Errno { number: 43, name: "EIDRM" },
    Errno { number: 44, name: "ECHRNG" },
    Errno { number: 45, name: "EL2NSYNC" },
    Errno { number: 46, name: "EL3HLT" },
    Errno { number: 47, name: "EL3RST" },
    Errno { number: 48, name: "ELNRNG" },
    Errno { number: 49, name: "EUNATCH" },
    Errno { number: 50, name: "ENOCSI" },
    Errno { number: 51, name: "EL2HLT" },
    Errno { number: 52, name: "EBADE" },
    Errno { number: 53, name: "EBADR" },
    Errno { number: 54, name: "EXFULL" },
    Errno { number: 55, name: "ENOANO" },
    Errno { number: 56, name: "EBADRQC" },
    Errno { number: 57, name: "EBADSLT" },
    Errno { number: 59, name: "EBFONT" },
    Errno { number: 60, name: "ENOSTR" },
    Errno { number: 61, name: "ENODATA" },
    Errno { number: 62, name: "ETIME" },
    Errno { number: 63, name: "ENOSR" },
    Errno { number: 64, name: "ENONET" },
    Errno { number: 65, name: "ENOPKG" },
    Errno { number: 66, name: "EREMOTE" },
    Errno { number: 67, name: "ENOLINK" },
    Errno { number: 68, name: "EADV" },
    Errno { number: 69, name: "ESRMNT" },
    Errno { number: 70, name: "ECOMM" },
    Errno { number: 71, name: "EPROTO" },
    Errno { number: 72, name: "EMULTIHOP" },
    Errno { number: 73, name: "EDOTDOT" },
    Errno { number: 74, name: "EBADMSG" },
    Errno { number: 75, name: "EOVERFLOW" },
    Errno { number: 76, name: "ENOTUNIQ" },
    Errno { number: 77, name: "EBADFD" },
    Errno { number: 78, name: "EREMCHG" },
    Errno { number: 79, name: "ELIBACC" },
    Errno { number: 80, name: "ELIBBAD" },
    Errno { number: 81, name: "ELIBSCN" },
    Errno { number: 82, name: "ELIBMAX" },
    Errno { number: 83, name: "ELIBEXEC" },
];

// `asm-generic/errno.h` from 84 on, and the kernel's own number for an operation that isn't supported.
#[rattlefmt::skip]
static LAST: [Errno; 51] = [
    Errno { number: 84, name: "EILSEQ" },
    Errno { number: 85, name: "ERESTART" },
    Errno { number: 86, name: "ESTRPIPE" },
    Errno { number: 87, name: "EUSERS" },
    Errno { number: 88, name: "ENOTSOCK" },
    Errno { number: 89, name: "EDESTADDRREQ" },
    Errno { number: 90, name: "EMSGSIZE" },
    Errno { number: 91, name: "EPROTOTYPE" },
    Errno { number: 92, name: "ENOPROTOOPT" },
    Errno { number: 93, name: "EPROTONOSUPPORT" },
    Errno { number: 94, name: "ESOCKTNOSUPPORT" },
    Errno { number: 95, name: "EOPNOTSUPP" },
    Errno { number: 96, name: "EPFNOSUPPORT" },
    Errno { number: 97, name: "EAFNOSUPPORT" },
    Errno { number: 98, name: "EADDRINUSE" },
    Errno { number: 99, name: "EADDRNOTAVAIL" },
    Errno { number: 100, name: "ENETDOWN" },
    Errno { number: 101, name: "ENETUNREACH" },
    Errno { number: 102, name: "ENETRESET" },
    Errno { number: 103, name: "ECONNABORTED" },
    Errno { number: 104, name: "ECONNRESET" },
    Errno { number: 105, name: "ENOBUFS" },
    Errno { number: 106, name: "EISCONN" },
    Errno { number: 107, name: "ENOTCONN" },
    Errno { number: 108, name: "ESHUTDOWN" },
    Errno { number: 109, name: "ETOOMANYREFS" },
    Errno { number: 110, name: "ETIMEDOUT" },
    Errno { number: 111, name: "ECONNREFUSED" },
    Errno { number: 112, name: "EHOSTDOWN" },
    Errno { number: 113, name: "EHOSTUNREACH" },
    Errno { number: 114, name: "EALREADY" },
    Errno { number: 115, name: "EINPROGRESS" },
    Errno { number: 116, name: "ESTALE" },
    Errno { number: 117, name: "EUCLEAN" },
    Errno { number: 118, name: "ENOTNAM" },
    Errno { number: 119, name: "ENAVAIL" },
    Errno { number: 120, name: "EISNAM" },
    Errno { number: 121, name: "EREMOTEIO" },
    Errno { number: 122, name: "EDQUOT" },
    Errno { number: 123, name: "ENOMEDIUM" },
    Errno { number: 124, name: "EMEDIUMTYPE" },
    Errno { number: 125, name: "ECANCELED" },
    Errno { number: 126, name: "ENOKEY" },
    Errno { number: 127, name: "EKEYEXPIRED" },
    Errno { number: 128, name: "EKEYREVOKED" },
    Errno { number: 129, name: "EKEYREJECTED" },
    Errno { number: 130, name: "EOWNERDEAD" },
    Errno { number: 131, name: "ENOTRECOVERABLE" },
    Errno { number: 132, name: "ERFKILL" },
    Errno { number: 133, name: "EHWPOISON" },
    Errno { number: 524, name: "ENOTSUPP" },
];

#[tactic(auto, unfolding(crate::specs::Errno::first_errnos))]
fn first_errnos() -> &'static [Errno]
    ensures { map row_of result.now ≡ first_errnos }
{
    &FIRST
}

#[tactic(auto, unfolding(crate::specs::Errno::middle_errnos))]
fn middle_errnos() -> &'static [Errno]
    ensures { map row_of result.now ≡ middle_errnos }
{
    &MIDDLE
}

#[tactic(auto, unfolding(crate::specs::Errno::last_errnos))]
fn last_errnos() -> &'static [Errno]
    ensures { map row_of result.now ≡ last_errnos }
{
    &LAST
}

/// The name of an error number, such as `EINVAL` for 22.
#[tactic(auto, unfolding(crate::specs::Errno::errno_name))]
pub fn errno_name(number: u32) -> Option<&'static str>
    ensures { option_map (λ name. name.now) result ≡ errno_name number }
{
    if let Some(name) = name_in(first_errnos(), number) {
        return Some(name);
    }
    match name_in(middle_errnos(), number) {
        Some(name) => Some(name),
        None => name_in(last_errnos(), number),
    }
}

fn name_in(rows: &'static [Errno], number: u32) -> Option<&'static str>
    ensures { option_map (λ name. name.now) result ≡ name_in (map row_of rows.now) number }
{
    for row in rows {
        if row.number == number {
            return Some(row.name);
        }
    }
    None
}
