//! The parts of the C program that don't depend on the layers.

/// Before the table: what the program is, and the table's types.
pub const HEAD: &str =
    "/* Made by `landtree export`: runs a program under the Landlock layers of a policy's profile, as
 *
 *     cc -o confined this.c
 *     ./confined PROGRAM [WORD]...
 *
 * It never runs the program unconfined. Statuses of its own: 125 if a layer can't be enforced, 126 if the program can't
 * be run, 127 if it isn't there.
 *
 * No layer restricts stat(2), chmod(2), chown(2), utimes(2), extended attributes, locks, or what the program does
 * through the descriptors that it inherits. */
#define _GNU_SOURCE
#include <errno.h>
#include <fcntl.h>
#include <stdarg.h>
#include <stddef.h>
#include <stdint.h>
#include <stdio.h>
#include <stdlib.h>
#include <string.h>
#include <sys/prctl.h>
#include <sys/stat.h>
#include <sys/syscall.h>
#include <unistd.h>

enum kind { LAYER, RULE, END };

/* A layer with the rights that it handles, or a rule of the layer above it: the file's type, its path below the root,
 * and the rights that the rule grants. */
struct row {
    enum kind kind;
    mode_t type;
    const char *path;
    const char *rights;
};

";

/// After the table, up to the call that enforces a layer.
pub const HELPERS: &str = "/* The rights by the places of their bits. */
static const char *const names[] = {
    \"execute\", \"write_file\", \"read_file\", \"read_dir\", \"remove_dir\", \"remove_file\", \"make_char\",
    \"make_dir\", \"make_reg\", \"make_sock\", \"make_fifo\", \"make_block\", \"make_sym\", \"refer\", \"truncate\",
};

enum { NAMES = sizeof names / sizeof *names };

static const uint64_t of_files = 0x4007; /* execute, write_file, read_file, truncate */
static const uint64_t of_also = 0xd; /* execute, read_file, read_dir */

/* What linux/landlock.h and linux/openat2.h declare. */
struct ruleset {
    uint64_t handled_access_fs;
    uint64_t handled_access_net;
    uint64_t scoped;
};

struct path_beneath {
    uint64_t allowed_access;
    int32_t parent_fd;
} __attribute__((packed));

struct how {
    uint64_t flags;
    uint64_t mode;
    uint64_t resolve;
};

enum { OPENAT2 = 437, CREATE_RULESET = 444, ADD_RULE = 445, RESTRICT_SELF = 446 };
enum { PATH_BENEATH = 1, VERSION = 1 };
enum { BIND_TCP = 1, CONNECT_TCP = 2, REFER = 0x2000, IOCTL_DEV = 0x8000, ABSTRACT_UNIX_SOCKET = 1, SIGNAL = 2 };
enum { NO_MAGICLINKS = 2, NO_SYMLINKS = 4, BENEATH = 8 };

static void say(const char *format, ...)
{
    va_list words;

    fputs(\"landtree: \", stderr);
    va_start(words, format);
    vfprintf(stderr, format, words);
    va_end(words);
    fputc('\\n', stderr);
}

/* What can't be done to what, by errno. */
static void fail(const char *what, const char *path)
{
    say(\"%s %s: %s\", what, path, strerror(errno));
    exit(125);
}

/* The set that the names spell, with commas between. */
static uint64_t set_of(const char *rights)
{
    uint64_t set = 0;

    while (*rights) {
        size_t length = strcspn(rights, \",\");
        int number = 0;

        while (number < NAMES && (strlen(names[number]) != length || memcmp(names[number], rights, length)))
            number++;
        if (number == NAMES) {
            say(\"no right is called %s\", rights);
            exit(125);
        }
        set |= (uint64_t)1 << number;
        rights += length + (rights[length] == ',');
    }
    return set;
}

/* What this kernel knows of the set. It names the other rights, and goes on only with --best-effort. */
static uint64_t known_among(uint64_t set, uint64_t known)
{
    for (int number = 0; number < NAMES; number++)
        if ((set & ~known) >> number & 1)
            say(\"a layer can't have %s: this kernel doesn't know it\", names[number]);
    if (!BEST_EFFORT && (set & ~known))
        exit(125);
    return set & known;
}

/* The rights on files that this level of Landlock knows. */
static uint64_t known_set(long level)
{
    return level < 2 ? 0x1fff : level < 3 ? 0x3fff : 0x7fff;
}

/* Opens a path below this directory a name at a time, where there is no openat2. No name may be a link's. */
static int open_by_names(int top, const char *path)
{
    for (int above = top;;) {
        size_t length = strcspn(path, \"/\");
        int flags = O_PATH | O_NOFOLLOW | O_CLOEXEC | (path[length] ? O_DIRECTORY : 0);
        char *name = strndup(path, length);
        int fd = -1, why;

        if (name && !strcmp(name, \"..\"))
            errno = EXDEV;
        else if (name)
            fd = openat(above, name, flags);
        why = errno;
        free(name);
        if (above != top)
            close(above);
        errno = why;
        if (fd < 0 || !path[length])
            return fd;
        path += length + 1;
        above = fd;
    }
}

/* Opens a path below this directory, and follows no link on it. A link in the last place is opened itself. */
static int open_beneath(int top, const char *path)
{
    struct how how = {
        .flags = O_PATH | O_NOFOLLOW | O_CLOEXEC,
        .resolve = BENEATH | NO_SYMLINKS | NO_MAGICLINKS,
    };
    int fd = syscall(OPENAT2, top, path, &how, sizeof how);

    return fd < 0 && errno == ENOSYS ? open_by_names(top, path) : fd;
}

/* Opens the path of a rule. */
static int open_row(int top, const struct row *row)
{
    const char *path = row->path[1] ? row->path + 1 : \".\";
    int fd = FOLLOW ? openat(top, path, O_PATH | O_CLOEXEC | (row->type == S_IFLNK ? O_NOFOLLOW : 0))
                    : open_beneath(top, path);

    if (fd < 0)
        fail(\"can't open\", row->path);
    return fd;
}

static mode_t type_of(int fd, const char *path)
{
    struct stat found;

    if (fstat(fd, &found))
        fail(\"can't look at\", path);
    return found.st_mode & S_IFMT;
}

static const char *type_name(mode_t type)
{
    switch (type) {
    case S_IFREG: return \"a regular file\";
    case S_IFDIR: return \"a directory\";
    case S_IFLNK: return \"a symbolic link\";
    case S_IFIFO: return \"a fifo\";
    case S_IFSOCK: return \"a socket\";
    case S_IFCHR: return \"a character device\";
    case S_IFBLK: return \"a block device\";
    default: return \"nothing\";
    }
}

static void add_rule(int ruleset, int fd, uint64_t set, const char *path)
{
    struct path_beneath rule = {.allowed_access = set, .parent_fd = fd};

    if (set && syscall(ADD_RULE, ruleset, PATH_BENEATH, &rule, 0))
        fail(\"no rule on\", path);
    close(fd);
}

/* A rule of the profile. */
static void add_row(int ruleset, int top, const struct row *row, uint64_t handled)
{
    uint64_t set = set_of(row->rights) & handled;
    int fd = open_row(top, row);
    mode_t type = type_of(fd, row->path);

    if (type != row->type) {
        say(\"%s is %s here, and %s in the policy\", row->path, type_name(type), type_name(row->type));
        exit(125);
    }
    add_rule(ruleset, fd, set, row->path);
}

/* The rules that aren't the profile's. */
static void add_also(int ruleset, uint64_t handled)
{
    for (const char *const *path = also; *path; path++) {
        int fd = open(*path, O_PATH | O_CLOEXEC);

        if (fd < 0)
            fail(\"can't open\", *path);
        add_rule(ruleset, fd, of_also & handled & (type_of(fd, *path) == S_IFDIR ? handled : of_files), *path);
    }
}

static int create_ruleset(const struct ruleset *attr)
{
    int ruleset = syscall(CREATE_RULESET, attr, sizeof *attr, 0);

    if (ruleset < 0)
        fail(\"no ruleset for\", \"a layer\");
    return ruleset;
}

";

/// The call that enforces a layer.
pub const RESTRICT_SELF: &str = "/* Enforces a layer. */
static void restrict_self(int ruleset)
{
    if (syscall(RESTRICT_SELF, ruleset, 0))
        fail(\"can't enforce\", \"a layer\");
    close(ruleset);
}

";

/// The part that enforces the table's layers and runs the program.
pub const TAIL: &str =
    "/* Enforces the layer of this row and its rules, and counts it. Returns the next row. */
static const struct row *enforce(const struct row *row, int top, uint64_t known, int *layers)
{
    struct ruleset layer = {
        .handled_access_fs = known_among(set_of(row->rights), known),
    };
    int ruleset = layer.handled_access_fs ? create_ruleset(&layer) : -1;

    for (row++; row->kind == RULE; row++)
        if (ruleset >= 0)
            add_row(ruleset, top, row, layer.handled_access_fs);
    if (ruleset >= 0) {
        add_also(ruleset, layer.handled_access_fs);
        restrict_self(ruleset);
        ++*layers;
    }
    return row;
}

/* Whether this is to be denied, and can be. */
static int is_denied(int is_wanted, const char *what, long known, long needed)
{
    if (!is_wanted || known >= needed)
        return is_wanted;
    say(\"%s can't be denied: this kernel has level %ld of Landlock, and not %ld\", what, known, needed);
    if (!BEST_EFFORT)
        exit(125);
    return 0;
}

/* Enforces a layer that denies what --deny names. A layer denies moves between directories unless a rule of its own
   allows them, so this one allows them below /: the profile's layers decide. */
static void deny(long known)
{
    struct ruleset layer = {.handled_access_fs = REFER};
    int ruleset, fd;

    if (is_denied(DENY_TCP, \"tcp\", known, 4))
        layer.handled_access_net = BIND_TCP | CONNECT_TCP;
    if (is_denied(DENY_IOCTL_DEV, \"ioctl_dev\", known, 5))
        layer.handled_access_fs |= IOCTL_DEV;
    if (is_denied(DENY_SIGNAL, \"signal\", known, 6))
        layer.scoped |= SIGNAL;
    if (is_denied(DENY_ABSTRACT_UNIX_SOCKET, \"abstract_unix_socket\", known, 6))
        layer.scoped |= ABSTRACT_UNIX_SOCKET;
    if (layer.handled_access_fs == REFER && !layer.handled_access_net && !layer.scoped)
        return;
    fd = open(\"/\", O_PATH | O_DIRECTORY | O_CLOEXEC);
    if (fd < 0)
        fail(\"can't open\", \"/\");
    ruleset = create_ruleset(&layer);
    add_rule(ruleset, fd, REFER, \"/\");
    restrict_self(ruleset);
}

int main(int count, char **words)
{
    long level = syscall(CREATE_RULESET, NULL, 0, VERSION);
    const struct row *row = rows;
    int layers = 0;
    int top, why;

    if (count < 2) {
        say(\"no program is named\");
        return 125;
    }
    if (level < 1)
        fail(\"this kernel has\", \"no Landlock\");
    top = open(root, O_PATH | O_DIRECTORY | O_CLOEXEC);
    if (top < 0)
        fail(\"can't open\", root);
    if (prctl(PR_SET_NO_NEW_PRIVS, 1, 0, 0, 0))
        fail(\"can't give up\", \"new privileges\");
    while (row->kind == LAYER)
        row = enforce(row, top, known_set(level), &layers);
    if (!layers || row->kind != END) {
        say(\"no layer is enforced\");
        return 125;
    }
    deny(level);
    close(top);
    execvp(words[1], words + 1);
    why = errno;
    say(\"can't run %s: %s\", words[1], strerror(why));
    return why == ENOENT ? 127 : 126;
}
";
