// The texts of the library headers (ISO C11 7) that stand in for the machine's own: declarations and macros alone.

pub(crate) const STDDEF: &str = "\
typedef unsigned long size_t;
typedef long ptrdiff_t;
typedef int wchar_t;
typedef long double max_align_t;
#define NULL ((void *)0)
#define offsetof(t, m) __offsetof(t, m)
";

pub(crate) const STDINT: &str = "\
typedef signed char int8_t; typedef short int16_t; typedef int int32_t; typedef long int64_t;
typedef unsigned char uint8_t; typedef unsigned short uint16_t; typedef unsigned int uint32_t; typedef unsigned long uint64_t;
typedef long intptr_t; typedef unsigned long uintptr_t; typedef long intmax_t; typedef unsigned long uintmax_t;
#define INT8_MAX 127
#define INT16_MAX 32767
#define INT32_MAX 2147483647
#define INT64_MAX 9223372036854775807L
#define INT8_MIN (-128)
#define INT16_MIN (-32768)
#define INT32_MIN (-INT32_MAX - 1)
#define INT64_MIN (-INT64_MAX - 1)
#define UINT8_MAX 255
#define UINT16_MAX 65535
#define UINT32_MAX 4294967295U
#define UINT64_MAX 18446744073709551615UL
#define SIZE_MAX UINT64_MAX
#define INT64_C(v) v##L
#define UINT64_C(v) v##UL
";

pub(crate) const STDBOOL: &str = "\
#define bool _Bool
#define true 1
#define false 0
#define __bool_true_false_are_defined 1
";

pub(crate) const STDALIGN: &str = "\
#define alignas _Alignas
#define alignof _Alignof
#define __alignas_is_defined 1
#define __alignof_is_defined 1
";

pub(crate) const STDNORETURN: &str = "\
#define noreturn _Noreturn
";

pub(crate) const ISO646: &str = "\
#define and &&
#define and_eq &=
#define bitand &
#define bitor |
#define compl ~
#define not !
#define not_eq !=
#define or ||
#define or_eq |=
#define xor ^
#define xor_eq ^=
";

pub(crate) const LIMITS: &str = "\
#define CHAR_BIT 8
#define MB_LEN_MAX 4
#define SCHAR_MIN (-128)
#define SCHAR_MAX 127
#define UCHAR_MAX 255
#define CHAR_MIN SCHAR_MIN
#define CHAR_MAX SCHAR_MAX
#define SHRT_MIN (-32768)
#define SHRT_MAX 32767
#define USHRT_MAX 65535
#define INT_MAX 2147483647
#define INT_MIN (-INT_MAX - 1)
#define UINT_MAX 4294967295U
#define LONG_MAX 9223372036854775807L
#define LONG_MIN (-LONG_MAX - 1L)
#define ULONG_MAX 18446744073709551615UL
#define LLONG_MAX 9223372036854775807LL
#define LLONG_MIN (-LLONG_MAX - 1LL)
#define ULLONG_MAX 18446744073709551615ULL
";

pub(crate) const STDARG: &str = "\
struct __va { unsigned long w[3]; };
typedef struct __va va_list[1];
void *__va_next(struct __va *);
#define va_start(ap, p) ((void)(ap), (void)(p))
#define va_arg(ap, t) (*(t *)__va_next(ap))
#define va_copy(d, s) ((void)((d)[0] = (s)[0]))
#define va_end(ap) ((void)(ap))
";

pub(crate) const STDIO: &str = "\
#include <stddef.h>
#include <stdarg.h>
typedef struct __file FILE;
extern FILE *stdin, *stdout, *stderr;
#define stdin stdin
#define stdout stdout
#define stderr stderr
#define EOF (-1)
#define SEEK_SET 0
#define SEEK_CUR 1
#define SEEK_END 2
#define BUFSIZ 1024
int printf(const char *, ...); int fprintf(FILE *, const char *, ...);
int sprintf(char *, const char *, ...); int snprintf(char *, size_t, const char *, ...);
int vprintf(const char *, va_list); int vfprintf(FILE *, const char *, va_list);
int vsprintf(char *, const char *, va_list); int vsnprintf(char *, size_t, const char *, va_list);
int scanf(const char *, ...); int fscanf(FILE *, const char *, ...); int sscanf(const char *, const char *, ...);
FILE *fopen(const char *, const char *); int fclose(FILE *); int fflush(FILE *);
size_t fread(void *, size_t, size_t, FILE *); size_t fwrite(const void *, size_t, size_t, FILE *);
int fgetc(FILE *); int getc(FILE *); int getchar(void); int ungetc(int, FILE *); char *fgets(char *, int, FILE *);
int fputc(int, FILE *); int putc(int, FILE *); int putchar(int); int fputs(const char *, FILE *); int puts(const char *);
int fseek(FILE *, long, int); long ftell(FILE *); void rewind(FILE *);
int feof(FILE *); int ferror(FILE *); void clearerr(FILE *); void perror(const char *);
int remove(const char *); int rename(const char *, const char *);
";

pub(crate) const STDLIB: &str = "\
#include <stddef.h>
#define EXIT_SUCCESS 0
#define EXIT_FAILURE 1
#define RAND_MAX 32767
void *malloc(size_t); void *calloc(size_t, size_t); void *realloc(void *, size_t); void free(void *);
_Noreturn void exit(int); _Noreturn void abort(void); int atexit(void (*)(void));
int atoi(const char *); long atol(const char *); long long atoll(const char *); double atof(const char *);
long strtol(const char *, char **, int); unsigned long strtoul(const char *, char **, int);
long long strtoll(const char *, char **, int); unsigned long long strtoull(const char *, char **, int);
double strtod(const char *, char **);
int abs(int); long labs(long); long long llabs(long long); int rand(void); void srand(unsigned int);
void qsort(void *, size_t, size_t, int (*)(const void *, const void *));
void *bsearch(const void *, const void *, size_t, size_t, int (*)(const void *, const void *));
char *getenv(const char *); int system(const char *);
";

pub(crate) const STRING: &str = "\
#include <stddef.h>
void *memcpy(void *, const void *, size_t); void *memmove(void *, const void *, size_t);
void *memset(void *, int, size_t); int memcmp(const void *, const void *, size_t); void *memchr(const void *, int, size_t);
size_t strlen(const char *); char *strcpy(char *, const char *); char *strncpy(char *, const char *, size_t);
char *strcat(char *, const char *); char *strncat(char *, const char *, size_t);
int strcmp(const char *, const char *); int strncmp(const char *, const char *, size_t);
char *strchr(const char *, int); char *strrchr(const char *, int); char *strstr(const char *, const char *);
size_t strspn(const char *, const char *); size_t strcspn(const char *, const char *);
char *strpbrk(const char *, const char *); char *strtok(char *, const char *); char *strerror(int);
";

pub(crate) const CTYPE: &str = "\
int isalnum(int), isalpha(int), isblank(int), iscntrl(int), isdigit(int), isgraph(int), islower(int);
int isprint(int), ispunct(int), isspace(int), isupper(int), isxdigit(int), tolower(int), toupper(int);
";

pub(crate) const ERRNO: &str = "\
extern int errno;
#define errno errno
#define EDOM 33
#define ERANGE 34
#define EILSEQ 84
";

pub(crate) const ASSERT: &str = "\
#undef assert
#undef static_assert
#define static_assert _Static_assert
#ifdef NDEBUG
#define assert(e) ((void)0)
#else
#define assert(e) ((void)(e))
#endif
";
